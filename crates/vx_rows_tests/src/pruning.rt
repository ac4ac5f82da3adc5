//! Worked rows of pruning, with ample memory.
use crate::predicate_words::predicate;
use std::alloc::Global;
use std::test::Fail;
use vx_base::SegmentId;
use vx_data::{DType, FieldPath, Layout, Precision, Scalar, Stat, StatsSet};
use vx_footer::FileStatistics;
use vx_prune::{FileStatsBinder, FileStatsLayoutReader, can_prune_file_stats};
use vx_rows::{Bound, LayoutReader, Mask};

fn typed(alloc: Global, text: &str) -> Result<DType, Fail> {
    Ok(DType::from_text(alloc, text).ok().ok_or("no type")?)
}

// The type of a file of one field.
fn struct_of(alloc: Global, dtype: &str) -> Result<DType, Fail> {
    let text = format!(in alloc; "{{col:{dtype}}}")?;
    typed(alloc, text.as_str())
}

// A least and a greatest value, and a number of nulls.
fn numbers(least: i128, greatest: i128, nulls: i128, precision: Precision) -> StatsSet {
    let mut set = StatsSet::new();
    set.set(Stat::Min, Scalar::Int(least), precision);
    set.set(Stat::Max, Scalar::Int(greatest), precision);
    set.set(Stat::NullCount, Scalar::Int(nulls), precision);
    set
}

// The statistics of one field.
fn stats_of(alloc: Global, dtype: &str, set: StatsSet) -> Result<FileStatistics, Fail> {
    let sets = vec![in alloc; set]?;
    let dtypes = vec![in alloc; typed(alloc, dtype)?]?;
    Ok(FileStatistics::new(sets, dtypes))
}

fn bound(alloc: Global, words: &str, dtype: &DType) -> Result<Bound, Fail> {
    let predicate = predicate(alloc, words)?.ok_or("no predicate")?;
    Ok(predicate.bind(alloc, dtype).ok().ok_or("not bound")?)
}

// Whether a file of one field and so many rows is skipped.
fn skips(alloc: Global, dtype: &str, set: StatsSet, rows: u64, words: &str) -> Result<bool, Fail> {
    let whole = struct_of(alloc, dtype)?;
    let stats = stats_of(alloc, dtype, set)?;
    let bound = bound(alloc, words, &whole)?;
    Ok(can_prune_file_stats(&bound, rows, &stats, &whole))
}

// A value of a type, as its text spells it.
fn value(alloc: Global, dtype: &str, text: &str) -> Result<Scalar, Fail> {
    match dtype {
        "bool?" => Ok(Scalar::Bool(text == "true")),
        "text?" => Ok(Scalar::Text(String::from_str(alloc, text)?)),
        _ => Ok(Scalar::Int(text.parse::<i128>()?)),
    }
}

// The same statistics of values of any type.
fn bounds(
    alloc: Global,
    dtype: &str,
    least: &str,
    greatest: &str,
    nulls: i128,
) -> Result<StatsSet, Fail> {
    let mut set = StatsSet::new();
    set.set(Stat::Min, value(alloc, dtype, least)?, Precision::Exact);
    set.set(Stat::Max, value(alloc, dtype, greatest)?, Precision::Exact);
    set.set(Stat::NullCount, Scalar::Int(nulls), Precision::Exact);
    Ok(set)
}

const COMPARISONS: [&str; 6] = ["eq", "ne", "lt", "le", "gt", "ge"];

// Whether no value between two others satisfies a comparison with a literal. Each is the number of a value, in order.
fn never(comparison: &str, literal: usize, least: usize, greatest: usize) -> bool {
    match comparison {
        "eq" => literal < least || greatest < literal,
        "ne" => least == literal && greatest == literal,
        "lt" => literal <= least,
        "le" => literal < least,
        "gt" => greatest <= literal,
        _ => greatest < literal,
    }
}

// How many comparisons of a field, whose bounds have these numbers, are not answered by the slow rule.
fn count_wrong(
    alloc: Global,
    dtype: &str,
    values: &[&str],
    least: usize,
    greatest: usize,
) -> Result<usize, Fail> {
    let mut wrong: usize = 0;
    for comparison in COMPARISONS {
        for (literal, text) in values.iter().enumerate() {
            for nulls in [0, 3] {
                let low = values.get(least).ok_or("none")?;
                let high = values.get(greatest).ok_or("none")?;
                let set = bounds(alloc, dtype, low, high, nulls)?;
                let words = format!(in alloc; "{comparison} field col lit {dtype} {text}")?;
                let is_pruned = skips(alloc, dtype, set, 7, words.as_str())?;
                if is_pruned != never(comparison, literal, least, greatest) {
                    wrong = wrong.saturating_add(1);
                }
            }
        }
    }
    Ok(wrong)
}

#[test]
fn comparisons_are_pruned_at_exact_bounds(rt: HostRuntime) -> Result<(), Fail> {
    let alloc = rt.alloc();
    // Each type with some of its values, in their order.
    let cases: [(&str, &[&str]); 10] = [
        ("bool?", &["false", "true"]),
        ("u8?", &["0", "1", "2", "254", "255"]),
        ("u16?", &["9", "10", "11", "65534", "65535"]),
        ("u32?", &["9", "10", "11", "19", "4294967295"]),
        ("u64?", &["9", "10", "11", "19", "18446744073709551615"]),
        ("i8?", &["-128", "-127", "-1", "0", "127"]),
        ("i16?", &["-32768", "-1", "0", "1", "32767"]),
        ("i32?", &["-2", "-1", "0", "1", "2147483647"]),
        ("i64?", &["-9223372036854775808", "-1", "0", "1", "2"]),
        ("text?", &["a", "aa", "b", "ba", "c"]),
    ];
    for (dtype, values) in cases {
        for greatest in 0..values.len() {
            for least in 0..=greatest {
                assert_eq!(rt; count_wrong(alloc, dtype, values, least, greatest)?, 0);
            }
        }
    }
    Ok(())
}

#[test]
fn inexact_bounds_prune_nothing(rt: HostRuntime) -> Result<(), Fail> {
    let alloc = rt.alloc();
    for comparison in COMPARISONS {
        let inexact = numbers(10, 10, 0, Precision::Inexact);
        let words = format!(in alloc; "{comparison} field col lit i32 10")?;
        assert!(rt; !skips(alloc, "i32", inexact, 7, words.as_str())?);
    }
    Ok(())
}

// A least value, a greatest one and the number of nulls, the number of rows, words, and whether the file is skipped.
const ROWS: [(i128, i128, i128, u64, &str, bool); 16] = [
    (0, 100, 0, 5, "gt field col lit i32 200", true),
    (0, 100, 0, 5, "gt field col lit i32 50", false),
    (
        0,
        100,
        0,
        5,
        "gt add field col lit i32 5 lit i32 102",
        false,
    ),
    (0, 100, 0, 5, "gt cast i64 field col lit i64 100", true),
    (0, 100, 0, 5, "not not gt field col lit i32 100", false),
    (
        0,
        100,
        0,
        5,
        "or lit bool? ~ gt field col lit i32 50",
        false,
    ),
    (
        0,
        100,
        0,
        5,
        "and gt field col lit i32 50 lit bool? ~",
        true,
    ),
    (10, 10, 0, 7, "ne field col lit i32 9", false),
    (10, 10, 0, 7, "ne field col lit i32 10", true),
    (10, 10, 0, 7, "ne field col lit i32 11", false),
    (0, 9, 3, 3, "notnull field col", true),
    (0, 9, 2, 3, "notnull field col", false),
    (0, 9, 1, 3, "isnull field col", false),
    (0, 9, 0, 3, "isnull field col", true),
    (0, 9, 3, 3, "eq field col lit i32 1", true),
    (0, 9, 1, 3, "ne field col lit i32? ~", true),
];

#[test]
fn files_are_skipped_by_their_statistics(rt: HostRuntime) -> Result<(), Fail> {
    for (least, greatest, nulls, rows, words, answer) in ROWS {
        let set = numbers(least, greatest, nulls, Precision::Exact);
        assert_eq!(rt; skips(rt.alloc(), "i32?", set, rows, words)?, answer);
    }
    Ok(())
}

// Whether a statistic of a field is this number.
fn is_lent(alloc: Global, name: &str, stat: Stat, number: i128) -> Result<bool, Fail> {
    let whole = struct_of(alloc, "i32")?;
    let stats = stats_of(alloc, "i32", numbers(0, 100, 0, Precision::Exact))?;
    let path = FieldPath::new(vec![in alloc; String::from_str(alloc, name)?]?);
    let binder = FileStatsBinder::new(&stats, &whole);
    match binder.stat(&path, stat) {
        Some(Scalar::Int(value)) => Ok(*value == number),
        _ => Ok(false),
    }
}

#[test]
fn exact_statistics_are_lent(rt: HostRuntime) -> Result<(), Fail> {
    assert!(rt; is_lent(rt.alloc(), "col", Stat::Max, 100)?);
    assert!(rt; !is_lent(rt.alloc(), "col", Stat::NullCount, 1)?);
    assert!(rt; !is_lent(rt.alloc(), "other", Stat::Max, 100)?);
    Ok(())
}

// Whether a reader of two rows with values from 0 to 100 leaves these of the first, beside none of the second.
fn leaves(alloc: Global, words: &str, first: bool) -> Result<bool, Fail> {
    let layout = Layout::flat(alloc, struct_of(alloc, "i32")?, 2, SegmentId(0))?;
    let stats = stats_of(alloc, "i32", numbers(0, 100, 0, Precision::Exact))?;
    let reader = FileStatsLayoutReader::new(alloc, LayoutReader::new(layout), stats)?;
    let bound = bound(alloc, words, reader.dtype())?;
    let mask = Mask::new(vec![in alloc; true, false]?);
    let left = reader.pruning_evaluation(alloc, 0..2, &bound, mask)?;
    Ok(left.len() == 2 && left.get(0) == first && !left.get(1))
}

// Whether a reader of values from 0 to 20 answers as the statistics do, for more predicates than it keeps, each twice.
fn answers_again(alloc: Global) -> Result<bool, Fail> {
    let layout = Layout::flat(alloc, struct_of(alloc, "i32")?, 2, SegmentId(0))?;
    let stats = stats_of(alloc, "i32", numbers(0, 20, 0, Precision::Exact))?;
    let reader = FileStatsLayoutReader::new(alloc, LayoutReader::new(layout), stats)?;
    for literal in (0..40).chain(0..40) {
        let words = format!(in alloc; "gt field col lit i32 {literal}")?;
        let bound = bound(alloc, words.as_str(), reader.dtype())?;
        let mask = Mask::new(vec![in alloc; true]?);
        let left = reader.pruning_evaluation(alloc, 0..2, &bound, mask)?;
        if left.len() != 1 || left.get(0) != (literal < 20) {
            return Ok(false);
        }
    }
    Ok(true)
}

#[test]
fn kept_answers_are_those_of_the_statistics(rt: HostRuntime) -> Result<(), Fail> {
    assert!(rt; answers_again(rt.alloc())?);
    Ok(())
}

#[test]
fn a_file_that_is_skipped_has_no_rows(rt: HostRuntime) -> Result<(), Fail> {
    assert!(rt; leaves(rt.alloc(), "gt field col lit i32 200", false)?);
    assert!(rt; leaves(rt.alloc(), "gt field col lit i32 50", true)?);
    Ok(())
}
