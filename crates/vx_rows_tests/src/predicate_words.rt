//! Words that are predicates, and words that are none.
use std::alloc::Global;
use std::test::Fail;
use vx_prune::read_predicate;
use vx_rows::Predicate;

fn words_of(alloc: Global, text: &str) -> Result<Vec<String>, Fail> {
    let mut words = Vec::new(alloc);
    for word in text.split(' ') {
        words.push(String::from_str(alloc, word)?)?;
    }
    Ok(words)
}

/// The predicate of these words, if they are one.
pub(crate) fn predicate(alloc: Global, text: &str) -> Result<Option<Predicate>, Fail> {
    let words = words_of(alloc, text)?;
    Ok(read_predicate(alloc, &words).ok())
}

// Whether so many negations of the row are a predicate.
fn is_nested(alloc: Global, count: usize) -> Result<bool, Fail> {
    let mut text = String::new(alloc);
    for _ in 0..count {
        text.push_str("not ")?;
    }
    text.push_str("root")?;
    Ok(predicate(alloc, text.as_str())?.is_some())
}

#[test]
fn predicates_are_read_from_words(rt: HostRuntime) -> Result<(), Fail> {
    let alloc = rt.alloc();
    for text in [
        "root",
        "lit i32 5",
        "lit i8 -128",
        "lit i32? ~",
        "lit text %",
        "lit bool true",
        "field a/b",
        "field %20",
        "eq field a lit i32 3",
        "and isnull root notnull add cast i64 field a lit i64 1",
        "not or ne root root ge root root",
    ] {
        assert!(rt; predicate(alloc, text)?.is_some());
    }
    for text in [
        "",
        "field",
        "field a//b",
        "field /a",
        "root root",
        "lit i32 05",
        "lit i32 -0",
        "lit i8 128",
        "lit i32 ~",
        "lit i32 ",
        "lit i32 5\n",
        "lit {}? ~",
        "lit {} ()",
        "add root",
        "cast i65 root",
        "equals root root",
    ] {
        assert!(rt; predicate(alloc, text)?.is_none());
    }
    assert!(rt; is_nested(alloc, 63)?);
    assert!(rt; !is_nested(alloc, 64)?);
    Ok(())
}
