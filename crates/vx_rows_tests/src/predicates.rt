//! Which rows satisfy predicates, and how predicates are refused, with ample memory.
use crate::predicate_words::predicate;
use std::alloc::Global;
use std::test::Fail;
use vx_data::DType;
use vx_rows::{Bound, Column, read_rows};

// A digit for each row that is bound: 1 where it satisfies the predicate.
fn digits_of(alloc: Global, bound: &Bound, dtype: &DType, rows: &str) -> Result<String, Fail> {
    let column: Column = read_rows(alloc, dtype, rows).ok().ok_or("no rows")?;
    let mask = bound.rows(alloc, &column)?;
    let mut digits = String::new(alloc);
    for at in 0..mask.len() {
        digits.push_str(if mask.get(at) { "1" } else { "0" })?;
    }
    Ok(digits)
}

// The digits of the rows of a type, or why the predicate is refused.
fn told(alloc: Global, dtype: &str, rows: &str, words: &str) -> Result<String, Fail> {
    let dtype = DType::from_text(alloc, dtype).ok().ok_or("no type")?;
    let predicate = predicate(alloc, words)?.ok_or("no predicate")?;
    match predicate.bind(alloc, &dtype) {
        Ok(bound) => digits_of(alloc, &bound, &dtype, rows),
        Err(error) => Ok(format!(in alloc; "{error:?}")?),
    }
}

#[test]
fn integers_are_compared(rt: HostRuntime) -> Result<(), Fail> {
    let alloc = rt.alloc();
    for dtype in ["u8?", "u16?", "u32?", "u64?", "i8?", "i16?", "i32?", "i64?"] {
        for (op, answer) in [
            ("eq", "0010"),
            ("ne", "0101"),
            ("lt", "0100"),
            ("le", "0110"),
            ("gt", "0001"),
            ("ge", "0011"),
        ] {
            let words = format!(in alloc; "{op} root lit {dtype} 10")?;
            let found = told(alloc, dtype, "~\n9\n10\n11\n", words.as_str())?;
            assert_eq!(rt; found.as_str(), answer);
        }
    }
    Ok(())
}

const FLAGS: &str = "~\nfalse\ntrue\n";

const TEXTS: &str = "~\nb\nba\nba%00\n";

const LOW: &str = "-9223372036854775808\n-9223372036854775807\n9223372036854775807\n";

const HIGH: &str = "18446744073709551615\n18446744073709551614\n0\n";

const STRUCTS: &str = "{a:i32,a:text,b:{c:u8?}?}";

const STRUCT_ROWS: &str = "(1,x,(7))\n(2,y,~)\n(3,z,(~))\n";

const PAIRS: &str = "{a:i32?,b:text}";

#[test]
fn rows_satisfy_predicates_or_these_are_refused(rt: HostRuntime) -> Result<(), Fail> {
    let rows = [
        ("i64", LOW, "le root lit i64 -9223372036854775808", "100"),
        ("u64", HIGH, "gt lit u64 18446744073709551615 root", "011"),
        ("text?", TEXTS, "lt root lit text ba", "0100"),
        ("text?", TEXTS, "ge root lit text ba", "0011"),
        (
            "text?",
            "~\naaaa\nb\n%C3%A9\n",
            "gt root lit text b",
            "0001",
        ),
        ("bool?", FLAGS, "lt root lit bool true", "010"),
        ("bool?", FLAGS, "ge root lit bool true", "001"),
        ("bool?", FLAGS, "not and root lit bool? ~", "010"),
        ("bool?", FLAGS, "or root lit bool? ~", "001"),
        ("bool?", FLAGS, "or not root root", "011"),
        ("bool?", FLAGS, "isnull not root", "100"),
        ("bool?", FLAGS, "notnull root", "011"),
        (
            "u8?",
            "249\n250\n251\n~\n",
            "lt add root lit u8 5 lit u8 255",
            "1000",
        ),
        (
            "u8?",
            "249\n250\n251\n~\n",
            "isnull add root lit u8 5",
            "0011",
        ),
        (
            "u8?",
            "200\n201\n255\n~\n",
            "gt add cast i16 root lit i16 100 lit i16 300",
            "0110",
        ),
        (STRUCTS, STRUCT_ROWS, "isnull field b/c", "011"),
        (STRUCTS, STRUCT_ROWS, "isnull field b", "010"),
        (STRUCTS, STRUCT_ROWS, "ge field a lit i32 2", "011"),
        ("{a:i32}?", "(1)\n~\n", "isnull field a", "01"),
        (PAIRS, "", "gt field c lit u8 255", "NoField"),
        (PAIRS, "", "isnull field a/b", "NoField"),
        (PAIRS, "", "eq field a lit i64 1", "TypeMismatch"),
        (PAIRS, "", "field a", "TypeMismatch"),
        (PAIRS, "", "isnull cast text field a", "TypeMismatch"),
        (PAIRS, "", "eq root root", "TypeMismatch"),
        (PAIRS, "", "eq cast i16 field a field c", "NarrowingCast"),
    ];
    for (dtype, column, words, answer) in rows {
        let found = told(rt.alloc(), dtype, column, words)?;
        assert_eq!(rt; found.as_str(), answer);
    }
    Ok(())
}
