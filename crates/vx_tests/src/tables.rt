use std::alloc::{AllocError, Global};
use std::test::*;
use vx_base::{Alignment, ByteBuffer, SegmentSpec};
use vx_tables::*;

// The dtype table of a file of four numbers.
const DTYPE: [u8; 21] = [
    0x0e, 0x00, 0x00, 0x00, 0x0a, 0x00, 0x07, 0x00, 0x04, 0x00, 0x05, 0x00, 0x06, 0x00, 0x0a, 0x00,
    0x00, 0x00, 0x02, 0x00, 0x06,
];

// Its layout table.
const LAYOUT: [u8; 44] = [
    0x12, 0x00, 0x00, 0x00, 0x0e, 0x00, 0x12, 0x00, 0x04, 0x00, 0x06, 0x00, 0x00, 0x00, 0x00, 0x00,
    0x0e, 0x00, 0x0e, 0x00, 0x00, 0x00, 0x00, 0x00, 0x04, 0x00, 0x00, 0x00, 0x00, 0x00, 0x00, 0x00,
    0x04, 0x00, 0x00, 0x00, 0x01, 0x00, 0x00, 0x00, 0x00, 0x00, 0x00, 0x00,
];

// Its footer table.
const FOOTER: [u8; 237] = [
    0x0e, 0x00, 0x00, 0x00, 0x0a, 0x00, 0x10, 0x00, 0x04, 0x00, 0x08, 0x00, 0x0c, 0x00, 0x0a, 0x00,
    0x00, 0x00, 0x0c, 0x00, 0x00, 0x00, 0x9d, 0x00, 0x00, 0x00, 0xbf, 0x00, 0x00, 0x00, 0x04, 0x00,
    0x00, 0x00, 0x16, 0x00, 0x00, 0x00, 0x30, 0x00, 0x00, 0x00, 0x4f, 0x00, 0x00, 0x00, 0x6b, 0x00,
    0x00, 0x00, 0x06, 0x00, 0x08, 0x00, 0x04, 0x00, 0x06, 0x00, 0x00, 0x00, 0x04, 0x00, 0x00, 0x00,
    0x0b, 0x00, 0x00, 0x00, 0x76, 0x6f, 0x72, 0x74, 0x65, 0x78, 0x2e, 0x62, 0x6f, 0x6f, 0x6c, 0x00,
    0x06, 0x00, 0x08, 0x00, 0x04, 0x00, 0x06, 0x00, 0x00, 0x00, 0x04, 0x00, 0x00, 0x00, 0x10, 0x00,
    0x00, 0x00, 0x76, 0x6f, 0x72, 0x74, 0x65, 0x78, 0x2e, 0x70, 0x72, 0x69, 0x6d, 0x69, 0x74, 0x69,
    0x76, 0x65, 0x00, 0x06, 0x00, 0x08, 0x00, 0x04, 0x00, 0x06, 0x00, 0x00, 0x00, 0x04, 0x00, 0x00,
    0x00, 0x0d, 0x00, 0x00, 0x00, 0x76, 0x6f, 0x72, 0x74, 0x65, 0x78, 0x2e, 0x73, 0x74, 0x72, 0x75,
    0x63, 0x74, 0x00, 0x06, 0x00, 0x08, 0x00, 0x04, 0x00, 0x06, 0x00, 0x00, 0x00, 0x04, 0x00, 0x00,
    0x00, 0x0d, 0x00, 0x00, 0x00, 0x76, 0x6f, 0x72, 0x74, 0x65, 0x78, 0x2e, 0x76, 0x61, 0x72, 0x62,
    0x69, 0x6e, 0x00, 0x01, 0x00, 0x00, 0x00, 0x0a, 0x00, 0x00, 0x00, 0x06, 0x00, 0x08, 0x00, 0x04,
    0x00, 0x06, 0x00, 0x00, 0x00, 0x04, 0x00, 0x00, 0x00, 0x0b, 0x00, 0x00, 0x00, 0x76, 0x6f, 0x72,
    0x74, 0x65, 0x78, 0x2e, 0x66, 0x6c, 0x61, 0x74, 0x00, 0x01, 0x00, 0x00, 0x00, 0x08, 0x00, 0x00,
    0x00, 0x00, 0x00, 0x00, 0x00, 0x12, 0x00, 0x00, 0x00, 0x03, 0x00, 0x00, 0x00,
];

// Its postscript.
const POSTSCRIPT: [u8; 113] = [
    0x10, 0x00, 0x00, 0x00, 0x0c, 0x00, 0x10, 0x00, 0x04, 0x00, 0x08, 0x00, 0x00, 0x00, 0x0c, 0x00,
    0x0c, 0x00, 0x00, 0x00, 0x16, 0x00, 0x00, 0x00, 0x2d, 0x00, 0x00, 0x00, 0x44, 0x00, 0x00, 0x00,
    0x0a, 0x00, 0x11, 0x00, 0x04, 0x00, 0x0c, 0x00, 0x10, 0x00, 0x0a, 0x00, 0x00, 0x00, 0x1a, 0x00,
    0x00, 0x00, 0x00, 0x00, 0x00, 0x00, 0x15, 0x00, 0x00, 0x00, 0x03, 0x0a, 0x00, 0x11, 0x00, 0x04,
    0x00, 0x0c, 0x00, 0x10, 0x00, 0x0a, 0x00, 0x00, 0x00, 0x2f, 0x00, 0x00, 0x00, 0x00, 0x00, 0x00,
    0x00, 0x2c, 0x00, 0x00, 0x00, 0x03, 0x0a, 0x00, 0x11, 0x00, 0x04, 0x00, 0x0c, 0x00, 0x10, 0x00,
    0x0a, 0x00, 0x00, 0x00, 0x5b, 0x00, 0x00, 0x00, 0x00, 0x00, 0x00, 0x00, 0xed, 0x00, 0x00, 0x00,
    0x03,
];

const ARRAY_IDS: [&str; 4] = [
    "vortex.bool",
    "vortex.primitive",
    "vortex.struct",
    "vortex.varbin",
];

fn id_table(alloc: Global, id: &str) -> Result<TableWriter, AllocError> {
    let mut table = TableWriter::new(alloc);
    table.push_text(alloc, 0, id)?;
    Ok(table)
}

fn segment_table(alloc: Global, offset: u64, length: u32) -> Result<TableWriter, AllocError> {
    let mut table = TableWriter::new(alloc);
    table.push_u64(alloc, 0, offset)?;
    table.push_u32(alloc, 1, length)?;
    table.push_u8(alloc, 2, 3)?;
    Ok(table)
}

#[test]
fn writes_a_dtype(rt: HostRuntime) -> Result<(), Fail> {
    let mut table = TableWriter::new(rt.alloc());
    table.push_u8(rt.alloc(), 0, 2)?;
    table.push_u8(rt.alloc(), 1, 0)?;
    table.push_u8(rt.alloc(), 2, 6)?;
    let buffer = table.finish(rt.alloc())?;
    assert_eq!(rt; buffer.as_slice(), DTYPE.as_slice());
    Ok(())
}

#[test]
fn writes_a_layout(rt: HostRuntime) -> Result<(), Fail> {
    let mut table = TableWriter::new(rt.alloc());
    table.push_u16(rt.alloc(), 0, 0)?;
    table.push_u64(rt.alloc(), 1, 4)?;
    table.push_numbers(rt.alloc(), 4, &[0])?;
    let buffer = table.finish(rt.alloc())?;
    assert_eq!(rt; buffer.as_slice(), LAYOUT.as_slice());
    Ok(())
}

// A table for each id.
fn id_tables(alloc: Global, ids: &[&str]) -> Result<Vec<TableWriter>, AllocError> {
    let mut tables = Vec::new(alloc);
    for id in ids {
        tables.push(id_table(alloc, id)?)?;
    }
    Ok(tables)
}

#[test]
fn writes_a_footer(rt: HostRuntime) -> Result<(), Fail> {
    let arrays = id_tables(rt.alloc(), &ARRAY_IDS)?;
    let layouts = id_tables(rt.alloc(), &["vortex.flat"])?;
    let specs = [SegmentSpec {
        offset: 8,
        length: 18,
        alignment: Alignment::new(3)?,
    }];
    let mut table = TableWriter::new(rt.alloc());
    table.push_tables(rt.alloc(), 0, arrays)?;
    table.push_tables(rt.alloc(), 1, layouts)?;
    table.push_specs(rt.alloc(), 2, &specs)?;
    let buffer = table.finish(rt.alloc())?;
    assert_eq!(rt; buffer.as_slice(), FOOTER.as_slice());
    Ok(())
}

// The same tables as a list.
fn id_list(alloc: Global, ids: &[&str]) -> Result<TableList, AllocError> {
    let mut list = TableList::new(alloc);
    for id in ids {
        list.push(&id_table(alloc, id)?)?;
    }
    Ok(list)
}

// A table with a list in its first slot.
fn with_list(alloc: Global, list: &TableList) -> Result<ByteBuffer, TableError> {
    let mut table = TableWriter::new(alloc);
    table.push_list(alloc, 0, list)?;
    table.finish(alloc)
}

// A table with a vector of tables in its first slot.
fn with_tables(alloc: Global, tables: Vec<TableWriter>) -> Result<ByteBuffer, TableError> {
    let mut table = TableWriter::new(alloc);
    table.push_tables(alloc, 0, tables)?;
    table.finish(alloc)
}

#[test]
fn writes_listed_tables_as_their_vector(rt: HostRuntime) -> Result<(), Fail> {
    let alloc = rt.alloc();
    assert!(rt; TableList::new(alloc).is_empty());
    let list = id_list(alloc, &ARRAY_IDS)?;
    assert!(rt; !list.is_empty());
    let listed = with_list(alloc, &list)?;
    let kept = with_tables(alloc, id_tables(alloc, &ARRAY_IDS)?)?;
    assert!(rt; listed.as_slice() == kept.as_slice());
    Ok(())
}

#[test]
fn writes_a_postscript(rt: HostRuntime) -> Result<(), Fail> {
    let mut table = TableWriter::new(rt.alloc());
    table.push_table(rt.alloc(), 0, segment_table(rt.alloc(), 26, 21)?)?;
    table.push_table(rt.alloc(), 1, segment_table(rt.alloc(), 47, 44)?)?;
    table.push_table(rt.alloc(), 3, segment_table(rt.alloc(), 91, 237)?)?;
    let buffer = table.finish(rt.alloc())?;
    assert_eq!(rt; buffer.as_slice(), POSTSCRIPT.as_slice());
    Ok(())
}

// The numbers of the table in a slot: an offset, a length, an exponent, and one that is not there.
fn segment_in(
    bytes: &[u8],
    slot: usize,
) -> Result<Option<(Option<u64>, Option<u32>, Option<u8>, Option<u8>)>, BadTable> {
    let mut visits = Visits::new();
    let table = TableReader::root(bytes, &mut visits)?;
    match table.field_table(slot, &mut visits)? {
        Some(segment) => Ok(Some((
            segment.field_u64(0)?,
            segment.field_u32(1)?,
            segment.field_u8(2)?,
            segment.field_u8(3)?,
        ))),
        None => Ok(None),
    }
}

// Whether an element of a vector of tables has this text in its slot 0.
fn has_id(bytes: &[u8], slot: usize, at: usize, id: &str) -> Result<bool, BadTable> {
    let mut visits = Visits::new();
    let table = TableReader::root(bytes, &mut visits)?;
    match table.field_vector(slot, Elements::Offsets, &mut visits)? {
        Some(specs) if at < specs.len() => {
            let spec = specs.table_at(at, &mut visits)?;
            Ok(spec.field_text(0, &mut visits)? == Some(id))
        }
        _ => Ok(false),
    }
}

// Whether an element of a vector of texts is this text.
fn has_text(bytes: &[u8], slot: usize, at: usize, text: &str) -> Result<bool, BadTable> {
    let mut visits = Visits::new();
    let table = TableReader::root(bytes, &mut visits)?;
    match table.field_vector(slot, Elements::Offsets, &mut visits)? {
        Some(texts) if at < texts.len() => Ok(texts.text_at(at, &mut visits)? == text),
        _ => Ok(false),
    }
}

// Whether a text is in a slot.
fn is_text(bytes: &[u8], slot: usize, text: &str) -> Result<bool, BadTable> {
    let mut visits = Visits::new();
    let table = TableReader::root(bytes, &mut visits)?;
    Ok(table.field_text(slot, &mut visits)? == Some(text))
}

// Whether a vector has so many elements, of these bytes.
fn is_vector(
    bytes: &[u8],
    slot: usize,
    elements: Elements,
    count: usize,
    content: &[u8],
) -> Result<bool, BadTable> {
    let mut visits = Visits::new();
    let table = TableReader::root(bytes, &mut visits)?;
    match table.field_vector(slot, elements, &mut visits)? {
        Some(vector) => Ok(
            vector.len() == count
                && vector.is_empty() == (count == 0)
                && vector.as_bytes() == content,
        ),
        None => Ok(false),
    }
}

#[test]
fn reads_a_postscript(rt: HostRuntime) -> Result<(), Fail> {
    let dtype = Some((Some(26), Some(21), Some(3), None));
    let footer = Some((Some(91), Some(237), Some(3), None));
    assert_eq!(rt; segment_in(&POSTSCRIPT, 0)?, dtype);
    assert_eq!(rt; segment_in(&POSTSCRIPT, 3)?, footer);
    assert_eq!(rt; segment_in(&POSTSCRIPT, 2)?, None);
    assert_eq!(rt; segment_in(&POSTSCRIPT, 9)?, None);
    Ok(())
}

#[test]
fn reads_a_layout(rt: HostRuntime) -> Result<(), Fail> {
    let mut visits = Visits::new();
    let table = TableReader::root(&LAYOUT, &mut visits)?;
    assert_eq!(rt; table.field_u16(0)?, Some(0));
    assert_eq!(rt; table.field_u64(1)?, Some(4));
    assert!(rt; is_vector(&LAYOUT, 4, Elements::Numbers(4), 1, &[0, 0, 0, 0])?);
    Ok(())
}

#[test]
fn reads_a_footer(rt: HostRuntime) -> Result<(), Fail> {
    for (at, id) in ARRAY_IDS.iter().enumerate() {
        assert!(rt; has_id(&FOOTER, 0, at, id)?);
    }
    assert!(rt; !has_id(&FOOTER, 0, 4, "vortex.bool")?);
    assert!(rt; has_id(&FOOTER, 1, 0, "vortex.flat")?);
    assert!(rt; is_vector(&FOOTER, 2, Elements::Segments, 1, &FOOTER[221..])?);
    Ok(())
}

fn vectors(alloc: Global) -> Result<ByteBuffer, TableError> {
    let mut names = Vec::new(alloc);
    names.push(String::from_str(alloc, "first")?)?;
    names.push(String::from_str(alloc, "")?)?;
    let mut table = TableWriter::new(alloc);
    table.push_bytes(alloc, 2, &[7, 8])?;
    table.push_texts(alloc, 5, &names)?;
    table.push_text(alloc, 1023, "last")?;
    table.finish(alloc)
}

#[test]
fn reads_vectors_again(rt: HostRuntime) -> Result<(), Fail> {
    let buffer = vectors(rt.alloc())?;
    let bytes = buffer.as_slice();
    assert!(rt; is_vector(bytes, 2, Elements::Numbers(1), 2, &[7, 8])?);
    assert!(rt; has_text(bytes, 5, 0, "first")?);
    assert!(rt; has_text(bytes, 5, 1, "")?);
    assert!(rt; is_text(bytes, 1023, "last")?);
    Ok(())
}

// Whether so many tables can be entered, each by slot 0.
fn descends(table: &TableReader<'_>, count: u32, visits: &mut Visits) -> bool {
    if count == 0 {
        return true;
    }
    match table.field_table(0, visits) {
        Ok(Some(inner)) => descends(&inner, count - 1, visits),
        _ => false,
    }
}

#[test]
fn refuses_depth_65(rt: HostRuntime) -> Result<(), Fail> {
    let mut table = TableWriter::new(rt.alloc());
    for _ in 0..70 {
        let mut outer = TableWriter::new(rt.alloc());
        outer.push_table(rt.alloc(), 0, table)?;
        table = outer;
    }
    let buffer = table.finish(rt.alloc())?;
    let mut visits = Visits::new();
    let table = TableReader::root(buffer.as_slice(), &mut visits)?;
    assert!(rt; descends(&table, 63, &mut visits));
    assert!(rt; !descends(&table, 64, &mut visits));
    Ok(())
}

#[test]
fn refuses_the_visit_after_the_last(rt: HostRuntime) -> Result<(), Fail> {
    let table = id_table(rt.alloc(), "vortex.flat")?;
    let buffer = table.finish(rt.alloc())?;
    let mut visits = Visits::new();
    let table = TableReader::root(buffer.as_slice(), &mut visits)?;
    for _ in 0..999_999 {
        let _ = table.field_text(0, &mut visits)?;
    }
    assert!(rt; table.field_text(0, &mut visits).is_err());
    Ok(())
}

#[test]
fn refuses_damaged_tables(rt: HostRuntime) {
    // The place of the byte, its value, and what is damaged.
    let damages: [(usize, u8); 5] = [
        (0, 0xff), // the root's place
        (4, 0x03), // the vtable's size
        (6, 0x03), // the table's size
        (5, 0xff), // a vtable past the end
        (14, 0xff), // the way back to the vtable
    ];
    for (at, byte) in damages {
        let mut bytes = DTYPE;
        if at < bytes.len() {
            bytes[at] = byte;
        }
        assert!(rt; TableReader::root(&bytes, &mut Visits::new()).is_err());
    }
    let mut bytes = DTYPE;
    bytes[8] = 2;
    match TableReader::root(&bytes, &mut Visits::new()) {
        Ok(table) => assert!(rt; table.field_u8(0).is_err()),
        Err(_) => assert!(rt; false),
    }
}
