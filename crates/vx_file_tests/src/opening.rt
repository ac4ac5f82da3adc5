//! Files that are opened by readers and by names, with ample memory.
use crate::serving::{file, file_of_four};
use std::alloc::Global;
use std::test::Fail;
use vx_base::{ByteBuffer, MemOpener, MemReader, SegmentId};
use vx_data::VortexSession;
use vx_file::{OpenOptionsSessionExt, OpenPathError, ServeError, VortexFile};
use vx_footer::OpenError;
use vx_rows::Predicate;
use vx_source::SegmentSource;

// An opener of one file.
fn opener(alloc: Global, name: &str, bytes: ByteBuffer) -> Result<MemOpener, Fail> {
    let mut files = Vec::new(alloc);
    files.push((String::from_str(alloc, name)?, bytes, Vec::new(alloc)))?;
    Ok(MemOpener::new(alloc, files, Vec::new(alloc)))
}

// Whether a file has four rows, all in one segment of 18 bytes, and cannot be skipped.
fn is_four<S: SegmentSource>(alloc: Global, file: &mut VortexFile<S>) -> bool {
    if file.row_count() != 4 || file.can_prune(alloc, &Predicate::Root) != Ok(false) {
        return false;
    }
    match file.segment_source().segment(alloc, SegmentId(0)) {
        Ok(bytes) => bytes.len() == 18,
        Err(_) => false,
    }
}

#[test]
fn a_file_is_opened_by_its_reader(rt: HostRuntime) -> Result<(), Fail> {
    let alloc = rt.alloc();
    let session = VortexSession::new(alloc)?;
    let bytes = file_of_four(alloc)?;
    let reader = MemReader::new(alloc, bytes, None, None, 8, Vec::new(alloc))?;
    let opened = session.open_options(alloc)?.open(alloc, reader);
    let mut four = opened.ok().ok_or("refused")?;
    assert!(rt; is_four(alloc, &mut four));
    Ok(())
}

#[test]
fn a_file_is_opened_by_its_name(rt: HostRuntime) -> Result<(), Fail> {
    let alloc = rt.alloc();
    let session = VortexSession::new(alloc)?;
    let mut files = opener(alloc, "four", file_of_four(alloc)?)?;
    let opened = session
        .open_options(alloc)?
        .open_path(alloc, &mut files, "four");
    let mut four = opened.ok().ok_or("refused")?;
    assert!(rt; is_four(alloc, &mut four));
    let none = session
        .open_options(alloc)?
        .open_path(alloc, &mut files, "five");
    assert!(rt; none.err() == Some(OpenPathError::Opener));
    let mut empty = opener(alloc, "empty", file(alloc, "")?)?;
    let refused = session
        .open_options(alloc)?
        .open_path(alloc, &mut empty, "empty");
    assert!(rt; refused.err() == Some(OpenPathError::Serve(ServeError::Open(OpenError::TooSmall))));
    Ok(())
}
