use std::alloc::Global;
use std::test::*;
use vx_base::{ByteBuffer, SegmentId};
use vx_data::*;
use vx_tables::TableWriter;

// The dtype table of a file of four numbers.
const DTYPE: [u8; 21] = [
    0x0e, 0x00, 0x00, 0x00, 0x0a, 0x00, 0x07, 0x00, 0x04, 0x00, 0x05, 0x00, 0x06, 0x00, 0x0a, 0x00,
    0x00, 0x00, 0x02, 0x00, 0x06,
];

// Its layout table.
const LAYOUT: [u8; 44] = [
    0x12, 0x00, 0x00, 0x00, 0x0e, 0x00, 0x12, 0x00, 0x04, 0x00, 0x06, 0x00, 0x00, 0x00, 0x00, 0x00,
    0x0e, 0x00, 0x0e, 0x00, 0x00, 0x00, 0x00, 0x00, 0x04, 0x00, 0x00, 0x00, 0x00, 0x00, 0x00, 0x00,
    0x04, 0x00, 0x00, 0x00, 0x01, 0x00, 0x00, 0x00, 0x00, 0x00, 0x00, 0x00,
];

// Some bytes, of which the one at a place is another.
fn changed(alloc: Global, bytes: &[u8], at: usize, byte: u8) -> Result<Vec<u8>, Fail> {
    let mut copy = Vec::from_slice(alloc, bytes)?;
    if let Some(cell) = copy.get_mut(at) {
        *cell = byte;
    }
    Ok(copy)
}

// The text of the type that a table spells, or the name of the refusal.
fn told_dtype(alloc: Global, bytes: &[u8]) -> Result<String, Fail> {
    match DType::read(alloc, bytes) {
        Ok(dtype) => Ok(dtype.to_text(alloc)?),
        Err(error) => Ok(format!(in alloc; "{error:?}")?),
    }
}

fn texts(alloc: Global, all: &[&str]) -> Result<Vec<String>, Fail> {
    let mut made = Vec::new(alloc);
    for text in all {
        made.push(String::from_str(alloc, text)?)?;
    }
    Ok(made)
}

// The kind, rows and children of the layout that a table spells, or the name of the refusal.
fn told_layout(alloc: Global, bytes: &[u8], dtype: &DType, ids: &[&str]) -> Result<String, Fail> {
    let ids = texts(alloc, ids)?;
    match Layout::read(alloc, bytes, dtype, &ids) {
        Ok(layout) => {
            let kind = layout.kind();
            let rows = layout.row_count();
            let children = layout.children().len();
            Ok(format!(in alloc; "{kind:?} {rows} {children}")?)
        }
        Err(error) => Ok(format!(in alloc; "{error:?}")?),
    }
}

#[test]
fn reads_and_refuses_types(rt: HostRuntime) -> Result<(), Fail> {
    // The place of the byte that is changed, its value, and the answer.
    let rows: [(usize, u8, &str); 10] = [
        (20, 6, "i32"),
        (20, 0, "u8"),
        (20, 9, "Unsupported"),
        (19, 7, "i32?"),
        (18, 1, "bool"),
        (18, 3, "text"),
        (18, 4, "{}"),
        (18, 5, "Unsupported"),
        (12, 0xff, "BadTable"),
        (4, 3, "BadTable"),
    ];
    for (at, byte, answer) in rows {
        let bytes = changed(rt.alloc(), &DTYPE, at, byte)?;
        assert_eq!(rt; told_dtype(rt.alloc(), &bytes)?.as_str(), answer);
    }
    // The integer type of another kind is not looked at.
    let bytes = changed(rt.alloc(), &DTYPE, 12, 0xff)?;
    let bytes = changed(rt.alloc(), &bytes, 18, 1)?;
    assert_eq!(rt; told_dtype(rt.alloc(), &bytes)?.as_str(), "bool");
    Ok(())
}

// A type table of a kind that has one field of this type.
fn with_field(alloc: Global, kind: u8, inner: TableWriter) -> Result<TableWriter, Fail> {
    let names = texts(alloc, &["a b"])?;
    let mut fields = Vec::new(alloc);
    fields.push(inner)?;
    let mut table = TableWriter::new(alloc);
    table.push_u8(alloc, 0, kind)?;
    table.push_texts(alloc, 3, &names)?;
    table.push_tables(alloc, 4, fields)?;
    Ok(table)
}

fn of_kind(alloc: Global, kind: u8) -> Result<TableWriter, Fail> {
    let mut table = TableWriter::new(alloc);
    table.push_u8(alloc, 0, kind)?;
    Ok(table)
}

#[test]
fn looks_at_fields_of_every_kind(rt: HostRuntime) -> Result<(), Fail> {
    // The kind of the table, that of its field, and the answer.
    let rows = [
        (4, 3, "{a%20b:text}"),
        (1, 3, "bool"),
        (1, 9, "Unsupported"),
    ];
    for (kind, inner, answer) in rows {
        let table = with_field(rt.alloc(), kind, of_kind(rt.alloc(), inner)?)?;
        assert_eq!(rt; told_table(rt.alloc(), table)?.as_str(), answer);
    }
    Ok(())
}

// The text of the type that a table spells, or the name of the refusal.
fn told_table(alloc: Global, table: TableWriter) -> Result<String, Fail> {
    told_dtype(alloc, table.finish(alloc)?.as_slice())
}

// A type table of structs, so many of them one in the other, around the type of truth values.
fn nested_table(alloc: Global, levels: usize) -> Result<TableWriter, Fail> {
    let mut table = of_kind(alloc, 1)?;
    for _ in 0..levels {
        table = with_field(alloc, 4, table)?;
    }
    Ok(table)
}

// Whether a table spells a type.
fn is_type(alloc: Global, table: TableWriter) -> Result<bool, Fail> {
    Ok(DType::read(alloc, table.finish(alloc)?.as_slice()).is_ok())
}

#[test]
fn reads_64_levels_of_types(rt: HostRuntime) -> Result<(), Fail> {
    assert!(rt; is_type(rt.alloc(), nested_table(rt.alloc(), 63)?)?);
    let deeper = nested_table(rt.alloc(), 64)?;
    assert_eq!(rt; told_table(rt.alloc(), deeper)?.as_str(), "BadTable");
    Ok(())
}

#[test]
fn reads_and_refuses_layouts(rt: HostRuntime) -> Result<(), Fail> {
    let dtype = DType::Int(PType::I32, false);
    // The place of the byte that is changed, its value, and the answers with one id and with two.
    let rows: [(usize, u8, &str, &str); 4] = [
        (24, 4, "Flat 4 0", "Flat 4 0"),
        (36, 0, "BadTable", "BadTable"),
        (22, 1, "BadTable", "UnknownEncoding"),
        (22, 2, "BadTable", "BadTable"),
    ];
    for (at, byte, one, two) in rows {
        let bytes = changed(rt.alloc(), &LAYOUT, at, byte)?;
        let told = told_layout(rt.alloc(), &bytes, &dtype, &["vortex.flat"])?;
        assert_eq!(rt; told.as_str(), one);
        let told = told_layout(rt.alloc(), &bytes, &dtype, &["vortex.flat", "odd"])?;
        assert_eq!(rt; told.as_str(), two);
    }
    Ok(())
}

// So many layouts one in the other: the outer ones name the next `twice` or once, and the last is flat.
fn chain(alloc: Global, levels: usize, twice: bool) -> Result<Vec<u8>, Fail> {
    let mut bytes = Vec::from_slice(alloc, &[0x12, 0x00, 0x00, 0x00])?;
    for _ in 1..levels {
        let count = if twice { 2 } else { 1 };
        bytes.extend_from_slice(&[14, 0, 10, 0, 4, 0, 0, 0, 0, 0, 6, 0, 0, 0])?;
        bytes.extend_from_slice(&[14, 0, 0, 0, 1, 0, 4, 0, 0, 0])?;
        bytes.extend_from_slice(&[count, 0, 0, 0, 22, 0, 0, 0, 18, 0, 0, 0])?;
    }
    bytes.extend_from_slice(&[14, 0, 10, 0, 4, 0, 0, 0, 0, 0, 0, 0, 6, 0])?;
    bytes.extend_from_slice(&[14, 0, 0, 0, 0, 0, 4, 0, 0, 0, 1, 0, 0, 0, 7, 0, 0, 0])?;
    Ok(bytes)
}

#[test]
fn reads_as_many_levels_and_visits_as_allowed(rt: HostRuntime) -> Result<(), Fail> {
    let dtype = DType::Text(true);
    let ids = ["vortex.flat", "vortex.chunked"];
    let rows = [
        (2, true, "Chunked 0 2"),
        (12, true, "Chunked 0 2"),
        (25, true, "BadTable"),
        (64, false, "Chunked 0 1"),
        (65, false, "BadTable"),
    ];
    for (levels, twice, answer) in rows {
        let bytes = chain(rt.alloc(), levels, twice)?;
        let told = told_layout(rt.alloc(), &bytes, &dtype, &ids)?;
        assert_eq!(rt; told.as_str(), answer);
    }
    Ok(())
}

#[test]
fn makes_layouts(rt: HostRuntime) -> Result<(), Fail> {
    let flat = Layout::flat(rt.alloc(), DType::Bool(false), 3, SegmentId(5))?;
    let types = flat.child_types(rt.alloc())?;
    assert_eq!(rt; types.len(), 0);
    let children = vec![in rt.alloc(); flat]?;
    let chunked = Layout::chunked(rt.alloc(), DType::Bool(false), children)?;
    assert_eq!(rt; chunked.row_count(), 3);
    let types = chunked.child_types(rt.alloc())?;
    assert_eq!(rt;
        format!(in rt.alloc(); "{types:?}")?.as_str(),
        "[Chunk { index: 0, first_row: 0 }]"
    );
    let share = chunked.share(rt.alloc())?;
    assert_eq!(rt; share.children().len(), 1);
    Ok(())
}

#[test]
fn tells_types_and_texts(rt: HostRuntime) -> Result<(), Fail> {
    let rows = [
        ("", "%"),
        ("a_B.c-9", "a_B.c-9"),
        ("\u{e9} /", "%C3%A9%20%2F"),
    ];
    for (text, answer) in rows {
        assert_eq!(rt; quote(rt.alloc(), text)?.as_str(), answer);
    }
    let mut fields = Vec::new(rt.alloc());
    fields.push((
        String::from_str(rt.alloc(), "id")?,
        DType::Int(PType::U64, false),
    ))?;
    fields.push((String::new(rt.alloc()), DType::Text(true)))?;
    let dtype = DType::Struct(Fields::new(fields), true);
    let share = dtype.share(rt.alloc())?;
    assert_eq!(rt; share.to_text(rt.alloc())?.as_str(), "{id:u64,%:text?}?");
    assert!(rt; share.is_nullable());
    let low = Scalar::Int(-170141183460469231731687303715884105728);
    assert_eq!(rt;
        low.to_text(rt.alloc())?.as_str(),
        "-170141183460469231731687303715884105728"
    );
    assert_eq!(rt; Scalar::Bool(true).to_text(rt.alloc())?.as_str(), "true");
    Ok(())
}

// A table of statistics of one column, with this minimum, whose precision is inexact.
fn statistics(alloc: Global, min: &[u8], count: usize) -> Result<TableWriter, Fail> {
    let mut columns = Vec::new(alloc);
    for _ in 0..count {
        let mut column = TableWriter::new(alloc);
        column.push_bytes(alloc, 0, min)?;
        column.push_u8(alloc, 1, 2)?;
        column.push_u64(alloc, 4, 1)?;
        column.push_u8(alloc, 5, 1)?;
        columns.push(column)?;
    }
    let mut table = TableWriter::new(alloc);
    table.push_tables(alloc, 0, columns)?;
    Ok(table)
}

#[test]
fn reads_statistics(rt: HostRuntime) -> Result<(), Fail> {
    let dtype = DType::Int(PType::I16, false);
    let rows: [(&[u8], usize, &str); 4] = [
        (
            &[0xfe, 0xff],
            1,
            "Some((Int(-2), Inexact)) None Some((Int(1), Exact))",
        ),
        (&[0xfe, 0xff], 2, "StatsCount"),
        (&[0xfe], 1, "BadTable"),
        (&[0xfe], 0, "StatsCount"),
    ];
    for (min, count, answer) in rows {
        let buffer = statistics(rt.alloc(), min, count)?.finish(rt.alloc())?;
        let told = told_stats(rt.alloc(), buffer.as_slice(), &dtype)?;
        assert_eq!(rt; told.as_str(), answer);
    }
    Ok(())
}

// The statistics of the columns of a type that a table spells, or the name of the refusal.
fn told_stats(alloc: Global, bytes: &[u8], dtype: &DType) -> Result<String, Fail> {
    match read_stats(alloc, bytes, dtype) {
        Ok(sets) => told_sets(alloc, &sets),
        Err(error) => Ok(format!(in alloc; "{error:?}")?),
    }
}

fn told_sets(alloc: Global, sets: &[StatsSet]) -> Result<String, Fail> {
    match sets {
        [set] => {
            let (min, max, nulls) = (
                set.get(Stat::Min),
                set.get(Stat::Max),
                set.get(Stat::NullCount),
            );
            Ok(format!(in alloc; "{min:?} {max:?} {nulls:?}")?)
        }
        _ => Ok(String::new(alloc)),
    }
}

// The table of one column: a vtable of one slot, the offset of a vector of one table; that table's vtable, and
// its minimum, maximum and null count with their precisions; the bytes of the minimum and the maximum.
const STATISTICS: [u8; 81] = [
    0x0a, 0x00, 0x00, 0x00, 0x06, 0x00, 0x08, 0x00, 0x04, 0x00, 0x06, 0x00, 0x00, 0x00, 0x04, 0x00,
    0x00, 0x00, 0x01, 0x00, 0x00, 0x00, 0x14, 0x00, 0x00, 0x00, 0x10, 0x00, 0x17, 0x00, 0x04, 0x00,
    0x08, 0x00, 0x09, 0x00, 0x0d, 0x00, 0x0e, 0x00, 0x16, 0x00, 0x10, 0x00, 0x00, 0x00, 0x13, 0x00,
    0x00, 0x00, 0x01, 0x16, 0x00, 0x00, 0x00, 0x00, 0x02, 0x00, 0x00, 0x00, 0x00, 0x00, 0x00, 0x00,
    0x01, 0x04, 0x00, 0x00, 0x00, 0xfe, 0xff, 0xff, 0xff, 0x04, 0x00, 0x00, 0x00, 0x05, 0x00, 0x00,
    0x00,
];

// The statistics of a column of values from -2 to 5, two of them null.
fn some_statistics() -> StatsSet {
    let mut set = StatsSet::new();
    set.set(Stat::Min, Scalar::Int(-2), Precision::Exact);
    set.set(Stat::Max, Scalar::Int(5), Precision::Inexact);
    set.set(Stat::NullCount, Scalar::Int(2), Precision::Exact);
    set
}

// The table of the statistics of one column.
fn table_of_set(
    alloc: Global,
    sets: &[StatsSet; 1],
    dtypes: &[DType; 1],
) -> Result<ByteBuffer, Fail> {
    Ok(write_stats(alloc, sets, dtypes)?)
}

#[test]
fn writes_statistics(rt: HostRuntime) -> Result<(), Fail> {
    let sets = [some_statistics()];
    let dtypes = [DType::Int(PType::I32, true)];
    let buffer = table_of_set(rt.alloc(), &sets, &dtypes)?;
    assert_eq!(rt; buffer.as_slice(), STATISTICS.as_slice());
    assert_eq!(rt;
        told_stats(rt.alloc(), buffer.as_slice(), &dtypes[0])?,
        told_sets(rt.alloc(), &sets)?
    );
    assert!(rt; stats_have_few_visits(rt.alloc(), &sets, &dtypes)?);
    Ok(())
}

#[test]
fn enables_ids(rt: HostRuntime) -> Result<(), Fail> {
    let session = VortexSession::new(rt.alloc())?;
    assert_eq!(rt; session.enabled(ComponentKind::Array).len(), 4);
    let ids = texts(rt.alloc(), &["vortex.flat"])?;
    let session = session.with_enabled(rt.alloc(), ComponentKind::Layout, ids)?;
    let share = session.share(rt.alloc())?;
    assert_eq!(rt; share.enabled(ComponentKind::Layout).len(), 1);
    assert_eq!(rt; share.enabled(ComponentKind::Array).len(), 4);
    let mut set = StatsSet::new();
    set.set(Stat::Max, Scalar::Bool(true), Precision::Exact);
    assert!(rt; set.get(Stat::Max).is_some());
    assert!(rt; set.get(Stat::Min).is_none());
    Ok(())
}

// The table of a type.
fn table_of_type(alloc: Global, dtype: &DType) -> Result<ByteBuffer, Fail> {
    Ok(dtype.write(alloc)?)
}

// The table of a layout by the ids that it uses, and how many these are.
fn table_of_layout(alloc: Global, layout: &Layout) -> Result<(ByteBuffer, usize), Fail> {
    let ids = layout.used_ids(alloc)?;
    Ok((layout.write(alloc, &ids)?, ids.len()))
}

#[test]
fn writes_tables(rt: HostRuntime) -> Result<(), Fail> {
    let dtype = DType::Int(PType::I32, false);
    let table = table_of_type(rt.alloc(), &dtype)?;
    assert_eq!(rt; table.as_slice(), DTYPE.as_slice());
    let layout = Layout::flat(rt.alloc(), dtype, 4, SegmentId(0))?;
    assert!(rt; layout.has_few_levels() && layout.has_few_visits());
    let (table, ids) = table_of_layout(rt.alloc(), &layout)?;
    assert_eq!(rt; table.as_slice(), LAYOUT.as_slice());
    assert_eq!(rt; ids, 1);
    Ok(())
}

#[test]
fn keeps_the_ids_of_a_context(rt: HostRuntime) -> Result<(), Fail> {
    let ids = texts(rt.alloc(), &["vortex.flat"])?;
    let context = LayoutContext::new(Some(ids));
    assert!(rt; context.permitted().is_some());
    Ok(())
}

// Structs, so many of them one in the other, around a type.
fn nested_type(alloc: Global, levels: usize) -> Result<DType, Fail> {
    let mut dtype = DType::Bool(true);
    for _ in 0..levels {
        dtype = within_struct(alloc, dtype)?;
    }
    Ok(dtype)
}

// Whether a type is read again from its table.
fn is_read_again(alloc: Global, dtype: &DType) -> Result<bool, Fail> {
    let read = DType::read(alloc, table_of_type(alloc, dtype)?.as_slice())?;
    Ok(read.to_text(alloc)? == dtype.to_text(alloc)?)
}

#[test]
fn writes_64_levels_of_types(rt: HostRuntime) -> Result<(), Fail> {
    assert!(rt; is_read_again(rt.alloc(), &nested_type(rt.alloc(), 63)?)?);
    let refused = nested_type(rt.alloc(), 64)?.write(rt.alloc()).err();
    assert_eq!(rt; refused, Some(TableWriteError::TooDeep));
    Ok(())
}

fn within_struct(alloc: Global, dtype: DType) -> Result<DType, Fail> {
    let mut fields = Vec::new(alloc);
    fields.push((String::from_str(alloc, "a")?, dtype))?;
    Ok(DType::Struct(Fields::new(fields), false))
}

// The text that a quoted text spells, or the name of the refusal.
fn told_text(alloc: Global, text: &str) -> Result<String, Fail> {
    match unquote(alloc, text) {
        Ok(spelled) => Ok(spelled),
        Err(error) => Ok(format!(in alloc; "{error:?}")?),
    }
}

#[test]
fn reads_quoted_texts(rt: HostRuntime) -> Result<(), Fail> {
    let cases = [
        ("%", ""),
        ("a-b_c.9", "a-b_c.9"),
        ("a%20b", "a b"),
        ("%C3%A9", "\u{e9}"),
        ("%25", "%"),
        ("", "BadText"),
        ("a b", "BadText"),
        ("%%", "BadText"),
        ("%2", "BadText"),
        ("%41", "BadText"),
        ("%c3%A9", "BadText"),
        ("%C3", "BadText"),
    ];
    for (text, answer) in cases {
        assert_eq!(rt; told_text(rt.alloc(), text)?.as_str(), answer);
    }
    Ok(())
}

// The text of the type that a text spells, or the name of the refusal.
fn told_type(alloc: Global, text: &str) -> Result<String, Fail> {
    match DType::from_text(alloc, text) {
        Ok(dtype) => Ok(dtype.to_text(alloc)?),
        Err(error) => Ok(format!(in alloc; "{error:?}")?),
    }
}

// Structs, so many of them one in the other, around a type.
fn nested_text(alloc: Global, levels: usize) -> Result<String, Fail> {
    let mut text = String::new(alloc);
    for _level in 0..levels {
        text.push_str("{a:")?;
    }
    text.push_str("u8")?;
    for _level in 0..levels {
        text.push_str("}")?;
    }
    Ok(text)
}

#[test]
fn reads_texts_of_types(rt: HostRuntime) -> Result<(), Fail> {
    let spelled = [
        "bool",
        "u8",
        "u16?",
        "u32",
        "u64",
        "i8",
        "i16",
        "i32?",
        "i64",
        "text",
        "text?",
        "{}",
        "{}?",
        "{a:i32}",
        "{%:i8}",
        "{a:i32,a:text?,b:{c:bool}?}",
        "{%3F:{}}",
    ];
    for text in spelled {
        assert_eq!(rt; told_type(rt.alloc(), text)?.as_str(), text);
    }
    let refused = [
        "",
        " ",
        "I32",
        "i32 ",
        "i32??",
        "i3",
        "i322",
        "{",
        "}",
        "{a}",
        "{a:}",
        "{:i8}",
        "{a:i32,}",
        "{,a:i8}",
        "{a:i32;b:i8}",
        "{%41:i32}",
        "{a:i32}}",
        "{}{}",
        "{ a:i8}",
        "{%FF:i8}",
        "boolean",
    ];
    for text in refused {
        assert_eq!(rt; told_type(rt.alloc(), text)?.as_str(), "BadText");
    }
    let deep = nested_text(rt.alloc(), 63)?;
    assert_eq!(rt;
        told_type(rt.alloc(), deep.as_str())?.as_str(),
        deep.as_str()
    );
    let deeper = nested_text(rt.alloc(), 64)?;
    assert_eq!(rt; told_type(rt.alloc(), deeper.as_str())?.as_str(), "BadText");
    Ok(())
}
