//! Files of rows that are written and opened again, with ample memory.
use std::alloc::Global;
use std::test::*;
use vx_base::{Alignment, ByteBuffer, MemSink};
use vx_data::{DType, VortexSession};
use vx_footer::{DeserializeStep, FileVersion, Footer};
use vx_rows::{Column, read_rows};
use vx_write::*;

fn typed(alloc: Global) -> Result<DType, Fail> {
    match DType::from_text(alloc, "{a:i32?,b:{c:text,d:bool}?}?") {
        Ok(dtype) => Ok(dtype),
        Err(_) => Err(Fail::from("no type")),
    }
}

fn rows(alloc: Global, dtype: &DType, text: &str) -> Result<Column, Fail> {
    match read_rows(alloc, dtype, text) {
        Ok(column) => Ok(column),
        Err(_) => Err(Fail::from("no rows")),
    }
}

// What a file of the second version with a metadata value is written with.
fn options(alloc: Global, excludes: bool) -> Result<VortexWriteOptions, Fail> {
    let session = VortexSession::new(alloc)?;
    let options = VortexWriteOptions::new(alloc, session)?.with_version(FileVersion::V2);
    let key = String::from_str(alloc, "origin")?;
    let value = ByteBuffer::from_vec(alloc, vec![in alloc; 7, 8]?, Alignment::none())?;
    let options = options.with_metadata_segment(alloc, key, value)?;
    if excludes {
        return Ok(options.exclude_dtype());
    }
    Ok(options)
}

// A file of five structs in two chunks.
fn written(alloc: Global, excludes: bool) -> Result<Vec<u8>, Fail> {
    let dtype = typed(alloc)?;
    let first = rows(alloc, &dtype, "(1,(x,true))\n~\n(~,~)\n")?;
    let second = rows(alloc, &dtype, "(4,(yz,false))\n(5,~)\n")?;
    let chunks = vec![in alloc; first, second]?;
    let mut out = MemSink::new(alloc, Vec::new(alloc));
    write_rows(alloc, options(alloc, excludes)?, &mut out, dtype, &chunks)?;
    Ok(out.into_bytes())
}

// The footer of a file, where it opens.
fn opened(alloc: Global, bytes: &[u8], dtype: Option<DType>) -> Result<Option<Footer>, Fail> {
    let buffer = ByteBuffer::from_vec(alloc, Vec::from_slice(alloc, bytes)?, Alignment::none())?;
    let session = VortexSession::new(alloc)?;
    let deserializer = Footer::deserializer(buffer, session).with_some_dtype(dtype);
    let mut deserializer = deserializer.with_size(bytes.len() as u64);
    match deserializer.deserialize(alloc) {
        Ok(DeserializeStep::Done(footer)) => Ok(Some(footer)),
        _ => Ok(None),
    }
}

#[test]
fn a_written_file_opens(rt: HostRuntime) -> Result<(), Fail> {
    let alloc = rt.alloc();
    let bytes = written(alloc, false)?;
    let footer = opened(alloc, bytes.as_slice(), None)?.ok_or("no footer")?;
    assert_eq!(rt; footer.version(), FileVersion::V2);
    assert_eq!(rt; footer.row_count(), 5);
    // The leaves are two columns of which structs are there, and the three fields.
    assert_eq!(rt; footer.segment_map().len(), 5);
    assert_eq!(rt; footer.segment_specs_with_metadata().len(), 6);
    assert!(rt; footer.statistics().is_some());
    Ok(())
}

#[test]
fn a_file_without_its_type_needs_one(rt: HostRuntime) -> Result<(), Fail> {
    let alloc = rt.alloc();
    let bytes = written(alloc, true)?;
    assert!(rt; opened(alloc, bytes.as_slice(), None)?.is_none());
    let dtype = Some(typed(alloc)?);
    let footer = opened(alloc, bytes.as_slice(), dtype)?.ok_or("no footer")?;
    assert_eq!(rt; footer.row_count(), 5);
    Ok(())
}
