//! Files that are read as one, with ample memory.
use crate::scans::{file_of_structs, has};
use crate::serving::file_of_four;
use std::alloc::Global;
use std::test::Fail;
use vx_base::{MemOpener, NoCache};
use vx_data::VortexSession;
use vx_file::{MultiError, MultiFileDataSource, VortexOpenOptions};
use vx_rows::Column;

// An opener of two files of four values, and one of structs.
fn opener(alloc: Global) -> Result<MemOpener, Fail> {
    let mut files = Vec::new(alloc);
    for name in ["a", "b"] {
        let name = String::from_str(alloc, name)?;
        files.push((name, file_of_four(alloc)?, Vec::new(alloc)))?;
    }
    let other = String::from_str(alloc, "other")?;
    files.push((other, file_of_structs(alloc)?, Vec::new(alloc)))?;
    Ok(MemOpener::new(alloc, files, Vec::new(alloc)))
}

// The rows of the files of these names.
fn rows_of(alloc: Global, names: &[&str]) -> Result<Result<Column, MultiError>, Fail> {
    let mut texts = Vec::new(alloc);
    for name in names {
        texts.push(String::from_str(alloc, name)?)?;
    }
    let as_they_are = |options: VortexOpenOptions<NoCache>| options;
    let source = MultiFileDataSource::new(VortexSession::new(alloc)?, as_they_are);
    let mut files = opener(alloc)?;
    match source.with_named_files(texts).build(alloc, &mut files) {
        Ok(mut whole) => Ok(whole.rows(alloc, &mut files)),
        Err(error) => Ok(Err(error)),
    }
}

#[test]
fn the_rows_of_two_files_come_one_behind_the_other(rt: HostRuntime) -> Result<(), Fail> {
    let alloc = rt.alloc();
    let rows = rows_of(alloc, &["a", "b"])?.ok().ok_or("no rows")?;
    assert!(rt; has(alloc, &rows, "1\n2\n3\n4\n1\n2\n3\n4\n")?);
    let rows = rows_of(alloc, &["other"])?.ok().ok_or("no rows")?;
    assert!(rt; rows.len() == 4);
    Ok(())
}

#[test]
fn files_that_are_not_read_are_named(rt: HostRuntime) -> Result<(), Fail> {
    let alloc = rt.alloc();
    let error = rows_of(alloc, &["a", "other"])?.err();
    assert!(rt; error == Some(MultiError::DTypeMismatch(1)));
    assert!(rt; rows_of(alloc, &["a", "none"])?.err() == Some(MultiError::Opener(1)));
    assert!(rt; rows_of(alloc, &[])?.err() == Some(MultiError::NoFiles));
    Ok(())
}
