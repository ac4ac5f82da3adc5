//! How rows are cut into the segments of a file, with ample memory.
ghost use Rattle.vx_write.specs.Strategies.{HasBlocks};

use std::alloc::Global;
use std::test::Fail;
use vx_base::MemSink;
use vx_data::{DType, FieldPath, VortexSession};
use vx_rows::{Column, read_rows};
use vx_write::{
    LayoutStrategy, LeafStrategy, VortexWriteOptions, WriteStrategyBuilder, write_rows,
};

const NESTED: &str = "{a:i32,b:{c:bool}?}?";

const NESTED_ROWS: [&str; 1] = ["(1,(true))\n~\n(2,~)\n"];

const NUMBERS: &str = "{b:i32}";

const PUSHES: [&str; 2] = ["(1)\n(2)\n", "(3)\n(4)\n(5)\n(6)\n(7)\n"];

fn rows(alloc: Global, dtype: &DType, text: &str) -> Result<Column, Fail> {
    match read_rows(alloc, dtype, text) {
        Ok(column) => Ok(column),
        Err(_) => Err(Fail::from("no rows")),
    }
}

fn defaults(alloc: Global) -> Result<WriteStrategyBuilder, Fail> {
    let session = VortexSession::new(alloc)?;
    Ok(WriteStrategyBuilder::from_session(alloc, &session)?)
}

// The field `b` is a leaf of this strategy.
fn with_leaf(alloc: Global, leaf: LeafStrategy) -> Result<LayoutStrategy, Fail>
    requires { HasBlocks leaf }
{
    let mut names = Vec::new(alloc);
    names.push(String::from_str(alloc, "b")?)?;
    let builder = defaults(alloc)?.with_field_writer(alloc, FieldPath::new(names), leaf)?;
    Ok(builder.build())
}

// The lengths of the segments of a file of rows that come in these pushes.
fn lengths(
    alloc: Global,
    strategy: LayoutStrategy,
    dtype: &str,
    pushes: &[&str],
) -> Result<Vec<u32>, Fail> {
    let dtype = DType::from_text(alloc, dtype).ok().ok_or("no type")?;
    let mut chunks = Vec::new(alloc);
    for push in pushes {
        chunks.push(rows(alloc, &dtype, push)?)?;
    }
    let options = VortexWriteOptions::new(alloc, VortexSession::new(alloc)?)?;
    let options = options.with_strategy(strategy);
    let mut out = MemSink::new(alloc, Vec::new(alloc));
    let summary = write_rows(alloc, options, &mut out, dtype, &chunks)?;
    let mut lengths = Vec::new(alloc);
    for segment in summary.footer().segment_map() {
        lengths.push(segment.length)?;
    }
    Ok(lengths)
}

// Whether the field `b` of seven numbers in two pushes makes segments of these lengths: two bytes, and four for
// each row.
fn cuts_to(alloc: Global, leaf: LeafStrategy, wanted: &[u32]) -> Result<bool, Fail>
    requires { HasBlocks leaf }
{
    let found = lengths(alloc, with_leaf(alloc, leaf)?, NUMBERS, &PUSHES)?;
    Ok(found.as_slice() == wanted)
}

#[test]
fn rows_are_cut(rt: HostRuntime) -> Result<(), Fail> {
    let alloc = rt.alloc();
    assert!(rt;
        cuts_to(
            alloc,
            LeafStrategy::Blocks {
                rows: 3,
                target: None
            },
            &[14, 14, 6]
        )?
    );
    assert!(rt;
        cuts_to(
            alloc,
            LeafStrategy::Blocks {
                rows: 3,
                target: Some(13)
            },
            &[26, 6]
        )?
    );
    assert!(rt;
        cuts_to(
            alloc,
            LeafStrategy::Blocks {
                rows: 7,
                target: None
            },
            &[30]
        )?
    );
    assert!(rt; cuts_to(alloc, LeafStrategy::Whole, &[30])?);
    Ok(())
}

#[test]
fn rows_are_split(rt: HostRuntime) -> Result<(), Fail> {
    let alloc = rt.alloc();
    // Which structs are there, the integers, which inner structs are there, and the truth values.
    let strategy = defaults(alloc)?.build();
    assert!(rt; strategy.flat().alignment.exponent() == 3);
    let found = lengths(alloc, strategy, NESTED, &NESTED_ROWS)?;
    assert!(rt; found.as_slice() == [3, 14, 3, 3].as_slice());
    let strategy = with_leaf(alloc, LeafStrategy::Whole)?;
    let found = lengths(alloc, strategy, NESTED, &NESTED_ROWS)?;
    assert!(rt; found.as_slice() == [3, 14, 7].as_slice());
    Ok(())
}

#[test]
fn columns_have_sizes(rt: HostRuntime) -> Result<(), Fail> {
    let alloc = rt.alloc();
    let cases = [
        ("{a:i32?,b:text}", "(1,x)\n(~,%)\n", [12, 11].as_slice()),
        ("i32", "1\n2\n", [10].as_slice()),
    ];
    for (dtype, text, wanted) in cases {
        let dtype = DType::from_text(alloc, dtype).ok().ok_or("no type")?;
        let chunks = vec![in alloc; rows(alloc, &dtype, text)?]?;
        let options = VortexWriteOptions::new(alloc, VortexSession::new(alloc)?)?;
        let mut out = MemSink::new(alloc, Vec::new(alloc));
        let summary = write_rows(alloc, options, &mut out, dtype, &chunks)?;
        let sizes = summary.compressed_column_sizes(alloc)?;
        assert_eq!(rt; sizes.as_slice(), wanted);
    }
    Ok(())
}
