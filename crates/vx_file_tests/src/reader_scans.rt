//! Scans by a reader that is given back, with ample memory.
use crate::scans::{damaged, field, has, number};
use crate::serving::file_of_four;
use std::alloc::Global;
use std::test::Fail;
use vx_base::{ByteBuffer, FaultKind, MemReader, Mischief, MischiefKind, SegmentId};
use vx_data::{PType, VortexSession};
use vx_file::{ScanReaderError, ServeOptions, scan_reader};
use vx_rows::{BindError, Column, Comparison, Predicate};

// What a scan of a file by a reader of it gives, and the reader.
fn scanned(
    alloc: Global,
    bytes: ByteBuffer,
    mischief: Vec<Mischief>,
    filter: Option<Predicate>,
) -> Result<(MemReader, Result<Column, ScanReaderError>), Fail> {
    let options = ServeOptions::new(VortexSession::new(alloc)?);
    let reader = MemReader::new(alloc, bytes, None, None, 8, mischief)?;
    Ok(scan_reader(alloc, &options, reader, filter))
}

// Whether a reader was asked for the whole of the four-value file, and for nothing else.
fn was_asked_once(reader: &MemReader) -> bool {
    match reader.asked() {
        [range] => range.offset == 0 && range.length == 449,
        _ => false,
    }
}

#[test]
fn a_reader_that_is_scanned_is_given_back(rt: HostRuntime) -> Result<(), Fail> {
    let alloc = rt.alloc();
    let (reader, rows) = scanned(alloc, file_of_four(alloc)?, Vec::new(alloc), None)?;
    assert!(rt; has(alloc, &rows.ok().ok_or("no rows")?, "1\n2\n3\n4\n")?);
    assert!(rt; was_asked_once(&reader));
    Ok(())
}

#[test]
fn a_predicate_is_bound_and_keeps_rows(rt: HostRuntime) -> Result<(), Fail> {
    let alloc = rt.alloc();
    let root = Box::new(alloc, Predicate::Root)?;
    let more = Predicate::Compare(Comparison::Gt, root, number(alloc, PType::I32, 2)?);
    let (_, rows) = scanned(alloc, file_of_four(alloc)?, Vec::new(alloc), Some(more))?;
    assert!(rt; has(alloc, &rows.ok().ok_or("no rows")?, "3\n4\n")?);
    let none = Predicate::IsNull(field(alloc, "id")?);
    let (reader, rows) = scanned(
        alloc,
        damaged(alloc, file_of_four(alloc)?, 8)?,
        Vec::new(alloc),
        Some(none),
    )?;
    assert!(rt; rows.err() == Some(ScanReaderError::Unbound(BindError::NoField)));
    assert!(rt; was_asked_once(&reader));
    Ok(())
}

#[test]
fn a_reader_that_fails_is_given_back(rt: HostRuntime) -> Result<(), Fail> {
    let alloc = rt.alloc();
    let mut mischief = Vec::new(alloc);
    mischief.push(Mischief {
        at: 0,
        kind: MischiefKind::Fail,
    })?;
    let (reader, rows) = scanned(alloc, file_of_four(alloc)?, mischief, None)?;
    let failed = match rows {
        Err(ScanReaderError::Read(fault)) => fault.kind() == FaultKind::ReadFault,
        _ => false,
    };
    assert!(rt; failed);
    assert!(rt; was_asked_once(&reader));
    let (reader, rows) = scanned(
        alloc,
        damaged(alloc, file_of_four(alloc)?, 8)?,
        Vec::new(alloc),
        None,
    )?;
    assert!(rt; rows.err() == Some(ScanReaderError::BadArray(SegmentId(0))));
    assert!(rt; was_asked_once(&reader));
    Ok(())
}
