use std::alloc::Global;
use std::test::*;
use vx_base::{Alignment, ByteBuffer, SegmentSpec};
use vx_data::{DType, Layout, VortexSession};
use vx_footer::*;
use vx_tables::TableWriter;

// The tables, the postscript and the end marker of a file of four numbers. The tables begin at
// offset 26.
pub(crate) const TAIL: [u8; 423] = [
    0x0e, 0x00, 0x00, 0x00, 0x0a, 0x00, 0x07, 0x00, 0x04, 0x00, 0x05, 0x00, 0x06, 0x00, 0x0a, 0x00,
    0x00, 0x00, 0x02, 0x00, 0x06, 0x12, 0x00, 0x00, 0x00, 0x0e, 0x00, 0x12, 0x00, 0x04, 0x00, 0x06,
    0x00, 0x00, 0x00, 0x00, 0x00, 0x0e, 0x00, 0x0e, 0x00, 0x00, 0x00, 0x00, 0x00, 0x04, 0x00, 0x00,
    0x00, 0x00, 0x00, 0x00, 0x00, 0x04, 0x00, 0x00, 0x00, 0x01, 0x00, 0x00, 0x00, 0x00, 0x00, 0x00,
    0x00, 0x0e, 0x00, 0x00, 0x00, 0x0a, 0x00, 0x10, 0x00, 0x04, 0x00, 0x08, 0x00, 0x0c, 0x00, 0x0a,
    0x00, 0x00, 0x00, 0x0c, 0x00, 0x00, 0x00, 0x9d, 0x00, 0x00, 0x00, 0xbf, 0x00, 0x00, 0x00, 0x04,
    0x00, 0x00, 0x00, 0x16, 0x00, 0x00, 0x00, 0x30, 0x00, 0x00, 0x00, 0x4f, 0x00, 0x00, 0x00, 0x6b,
    0x00, 0x00, 0x00, 0x06, 0x00, 0x08, 0x00, 0x04, 0x00, 0x06, 0x00, 0x00, 0x00, 0x04, 0x00, 0x00,
    0x00, 0x0b, 0x00, 0x00, 0x00, 0x76, 0x6f, 0x72, 0x74, 0x65, 0x78, 0x2e, 0x62, 0x6f, 0x6f, 0x6c,
    0x00, 0x06, 0x00, 0x08, 0x00, 0x04, 0x00, 0x06, 0x00, 0x00, 0x00, 0x04, 0x00, 0x00, 0x00, 0x10,
    0x00, 0x00, 0x00, 0x76, 0x6f, 0x72, 0x74, 0x65, 0x78, 0x2e, 0x70, 0x72, 0x69, 0x6d, 0x69, 0x74,
    0x69, 0x76, 0x65, 0x00, 0x06, 0x00, 0x08, 0x00, 0x04, 0x00, 0x06, 0x00, 0x00, 0x00, 0x04, 0x00,
    0x00, 0x00, 0x0d, 0x00, 0x00, 0x00, 0x76, 0x6f, 0x72, 0x74, 0x65, 0x78, 0x2e, 0x73, 0x74, 0x72,
    0x75, 0x63, 0x74, 0x00, 0x06, 0x00, 0x08, 0x00, 0x04, 0x00, 0x06, 0x00, 0x00, 0x00, 0x04, 0x00,
    0x00, 0x00, 0x0d, 0x00, 0x00, 0x00, 0x76, 0x6f, 0x72, 0x74, 0x65, 0x78, 0x2e, 0x76, 0x61, 0x72,
    0x62, 0x69, 0x6e, 0x00, 0x01, 0x00, 0x00, 0x00, 0x0a, 0x00, 0x00, 0x00, 0x06, 0x00, 0x08, 0x00,
    0x04, 0x00, 0x06, 0x00, 0x00, 0x00, 0x04, 0x00, 0x00, 0x00, 0x0b, 0x00, 0x00, 0x00, 0x76, 0x6f,
    0x72, 0x74, 0x65, 0x78, 0x2e, 0x66, 0x6c, 0x61, 0x74, 0x00, 0x01, 0x00, 0x00, 0x00, 0x08, 0x00,
    0x00, 0x00, 0x00, 0x00, 0x00, 0x00, 0x12, 0x00, 0x00, 0x00, 0x03, 0x00, 0x00, 0x00, 0x10, 0x00,
    0x00, 0x00, 0x0c, 0x00, 0x10, 0x00, 0x04, 0x00, 0x08, 0x00, 0x00, 0x00, 0x0c, 0x00, 0x0c, 0x00,
    0x00, 0x00, 0x16, 0x00, 0x00, 0x00, 0x2d, 0x00, 0x00, 0x00, 0x44, 0x00, 0x00, 0x00, 0x0a, 0x00,
    0x11, 0x00, 0x04, 0x00, 0x0c, 0x00, 0x10, 0x00, 0x0a, 0x00, 0x00, 0x00, 0x1a, 0x00, 0x00, 0x00,
    0x00, 0x00, 0x00, 0x00, 0x15, 0x00, 0x00, 0x00, 0x03, 0x0a, 0x00, 0x11, 0x00, 0x04, 0x00, 0x0c,
    0x00, 0x10, 0x00, 0x0a, 0x00, 0x00, 0x00, 0x2f, 0x00, 0x00, 0x00, 0x00, 0x00, 0x00, 0x00, 0x2c,
    0x00, 0x00, 0x00, 0x03, 0x0a, 0x00, 0x11, 0x00, 0x04, 0x00, 0x0c, 0x00, 0x10, 0x00, 0x0a, 0x00,
    0x00, 0x00, 0x5b, 0x00, 0x00, 0x00, 0x00, 0x00, 0x00, 0x00, 0xed, 0x00, 0x00, 0x00, 0x03, 0x01,
    0x00, 0x71, 0x00, 0x56, 0x54, 0x58, 0x46,
];

// The file, whose segment is zeros here.
pub(crate) fn file(alloc: Global) -> Result<Vec<u8>, Fail> {
    let mut file = Vec::from_slice(alloc, &[0; 26])?;
    file.extend_from_slice(TAIL.as_slice())?;
    Ok(file)
}

pub(crate) fn read(alloc: Global, bytes: &[u8]) -> Result<Option<Footer>, Fail> {
    let buffer = ByteBuffer::from_vec(alloc, Vec::from_slice(alloc, bytes)?, Alignment::none())?;
    let session = VortexSession::new(alloc)?;
    let mut deserializer = Footer::deserializer(buffer, session).with_size(bytes.len() as u64);
    match deserializer.deserialize(alloc)? {
        DeserializeStep::Done(footer) => Ok(Some(footer)),
        _ => Ok(None),
    }
}

#[test]
fn reads_the_footer_of_four_numbers(rt: HostRuntime) -> Result<(), Fail> {
    let bytes = file(rt.alloc())?;
    let footer = read(rt.alloc(), bytes.as_slice())?.ok_or("no footer")?;
    let footer = footer.share(rt.alloc())?;
    assert_eq!(rt; footer.version(), FileVersion::V1);
    assert_eq!(rt; footer.row_count(), 4);
    assert_eq!(rt; footer.segment_specs_with_metadata().len(), 1);
    assert!(rt; footer.statistics().is_none());
    assert_eq!(rt; footer.approx_byte_size(), Some(281));
    Ok(())
}

#[test]
fn prefixed_bytes_are_not_asked_again(rt: HostRuntime) -> Result<(), Fail> {
    let alloc = rt.alloc();
    let bytes = file(alloc)?;
    let last = Vec::from_slice(alloc, bytes.as_slice().get(328..).ok_or("no end")?)?;
    let buffer = ByteBuffer::from_vec(alloc, last, Alignment::none())?;
    let session = VortexSession::new(alloc)?;
    let mut deserializer = Footer::deserializer(buffer, session).with_size(449);
    let first = deserializer.deserialize(alloc)?;
    assert!(rt;
        matches!(
            first,
            DeserializeStep::NeedMoreData {
                offset: 26,
                len: 302
            }
        )
    );
    let more = Vec::from_slice(alloc, bytes.as_slice().get(26..328).ok_or("no tables")?)?;
    deserializer.prefix_data(alloc, ByteBuffer::from_vec(alloc, more, Alignment::none())?)?;
    assert_eq!(rt; deserializer.buffer().len(), 423);
    let second = deserializer.deserialize(alloc)?;
    assert!(rt; matches!(second, DeserializeStep::Done(_)));
    Ok(())
}

// The table of a struct's layout of two rows, whose fields are flat layouts of these segments.
fn struct_table(alloc: Global, ids: &[u32]) -> Result<TableWriter, Fail> {
    let mut children = Vec::new(alloc);
    for id in ids {
        let mut child = TableWriter::new(alloc);
        child.push_u16(alloc, 0, 0)?;
        child.push_u64(alloc, 1, 2)?;
        child.push_numbers(alloc, 4, &[*id])?;
        children.push(child)?;
    }
    let mut table = TableWriter::new(alloc);
    table.push_u16(alloc, 0, 1)?;
    table.push_u64(alloc, 1, 2)?;
    table.push_tables(alloc, 3, children)?;
    Ok(table)
}

// Segments of these lengths.
fn segments(alloc: Global, lengths: &[u32]) -> Result<Vec<SegmentSpec>, Fail> {
    let mut specs = Vec::new(alloc);
    for length in lengths {
        specs.push(SegmentSpec {
            offset: 8,
            length: *length,
            alignment: Alignment::none(),
        })?;
    }
    Ok(specs)
}

// The paths, their sizes and the total.
fn sizes_text(alloc: Global, sizes: &CompressedFieldSizes) -> Result<String, Fail> {
    let mut text = String::new(alloc);
    for (path, size) in sizes.iter() {
        for part in path.parts() {
            text.push_str("/")?;
            text.push_str(part.as_str())?;
        }
        let entry = format!(in alloc; " {size};")?;
        text.push_str(entry.as_str())?;
    }
    let total = sizes.total();
    let whole = format!(in alloc; " {total}")?;
    text.push_str(whole.as_str())?;
    Ok(text)
}

// The sizes of a file whose rows are of a type, with these segments in its fields, or the refusal.
fn told_sizes(alloc: Global, dtype: &str, ids: &[u32], lengths: &[u32]) -> Result<String, Fail> {
    let mut known = Vec::new(alloc);
    known.push(String::from_str(alloc, "vortex.flat")?)?;
    known.push(String::from_str(alloc, "vortex.struct")?)?;
    let Ok(dtype) = DType::from_text(alloc, dtype) else {
        return Ok(String::from_str(alloc, "no type")?);
    };
    let Ok(table) = struct_table(alloc, ids)?.finish(alloc) else {
        return Ok(String::from_str(alloc, "no table")?);
    };
    let Ok(layout) = Layout::read(alloc, table.as_slice(), &dtype, &known) else {
        return Ok(String::from_str(alloc, "no layout")?);
    };
    let footer = Footer::new(
        alloc,
        layout,
        segments(alloc, lengths)?,
        None,
        Vec::new(alloc),
    )?;
    match footer.compressed_field_sizes(alloc) {
        Ok(sizes) => sizes_text(alloc, &sizes),
        Err(error) => Ok(format!(in alloc; "{error:?}")?),
    }
}

#[test]
fn tells_sizes_of_fields(rt: HostRuntime) -> Result<(), Fail> {
    let rows: [(&str, &[u32], &[u32], &str); 6] = [
        ("{a:u8,a:u8}", &[0, 1], &[3, 4], " 7;/a 7; 7"),
        ("{a:u8,b:u8}", &[0, 1], &[12, 11], " 23;/a 12;/b 11; 23"),
        ("{b:u8,a:u8}", &[0, 0], &[5], " 5;/a 0;/b 0; 5"),
        (
            "{b:u8,a:u8,aa:u8}",
            &[2, 0, 1],
            &[1, 2, 4, 8],
            " 7;/a 1;/aa 2;/b 4; 7",
        ),
        (
            "{a:u8,b:u8}",
            &[0, 2],
            &[1, 2],
            "MissingSegment(SegmentId(2))",
        ),
        ("{a:u8,b:u8}", &[5, 3], &[1], "MissingSegment(SegmentId(5))"),
    ];
    for (dtype, ids, lengths, answer) in rows {
        assert_eq!(rt;
            told_sizes(rt.alloc(), dtype, ids, lengths)?.as_str(),
            answer
        );
    }
    Ok(())
}
