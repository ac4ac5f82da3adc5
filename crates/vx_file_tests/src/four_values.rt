//! Files of one column of i32, as `demo` writes them.
use crate::serving::file_of_four;
use std::alloc::Global;
use std::test::Fail;
use vx_base::MemSink;
use vx_data::{DType, PType, VortexSession};
use vx_footer::WriteError;
use vx_rows::read_rows;
use vx_write::{VortexWriteOptions, WriteSummary, write_rows};

// A file, or the part of it that a sink took.
#[derive(Drop)]
struct File {
    answer: Result<WriteSummary, WriteError>,
    bytes: Vec<u8>,
}

// The file of values of i32, a line each, without statistics, whose sink fails at these calls.
fn make_file(alloc: Global, values: &str, fail: Vec<u64>) -> Result<File, Fail> {
    let options = VortexWriteOptions::new(alloc, VortexSession::new(alloc)?)?;
    let options = options.with_file_statistics(Vec::new(alloc));
    let dtype = DType::Int(PType::I32, false);
    let column = read_rows(alloc, &dtype, values).ok().ok_or("no rows")?;
    let rows = vec![in alloc; column]?;
    let mut out = MemSink::new(alloc, fail);
    let answer = write_rows(alloc, options, &mut out, dtype, &rows);
    Ok(File {
        answer,
        bytes: out.into_bytes(),
    })
}

// The file of the numbers 1 to 4.
fn four_values(alloc: Global, fail: Vec<u64>) -> Result<File, Fail> {
    make_file(alloc, "1\n2\n3\n4\n", fail)
}

// The file of so many numbers, from 0 on.
fn counted(alloc: Global, count: u64) -> Result<File, Fail> {
    let mut values = String::new(alloc);
    for value in 0..count {
        let line = format!(in alloc; "{value}\n")?;
        values.push_str(line.as_str())?;
    }
    make_file(alloc, values.as_str(), Vec::new(alloc))
}

// Whether a file has so many bytes, and one segment of so many.
fn has_sizes(file: &File, size: u64, segment: u32) -> bool {
    match &file.answer {
        Ok(summary) => {
            let segments = summary.footer().segment_map();
            summary.size() == size && segments.len() == 1 && segments[0].length == segment
        }
        Err(_) => false,
    }
}

// Whether the sink failed, and took a part of this file.
fn is_part(file: &File, whole: &[u8]) -> bool {
    let bytes = file.bytes.as_slice();
    matches!(file.answer, Err(WriteError::WriteFault)) && whole.get(..bytes.len()) == Some(bytes)
}

#[test]
fn four_values_make_these_bytes(rt: HostRuntime) -> Result<(), Fail> {
    let alloc = rt.alloc();
    let file = four_values(alloc, Vec::new(alloc))?;
    assert!(rt; file.bytes.as_slice() == file_of_four(alloc)?.as_slice());
    assert!(rt; has_sizes(&file, 449, 18));
    Ok(())
}

#[test]
fn the_least_and_the_greatest_value_are_written(rt: HostRuntime) -> Result<(), Fail> {
    let alloc = rt.alloc();
    let values = "-2147483648\n2147483647\n-1\n";
    let file = make_file(alloc, values, Vec::new(alloc))?;
    let segment = [
        1, 0, 0, 0, 0, 0x80, 0xff, 0xff, 0xff, 0x7f, 0xff, 0xff, 0xff, 0xff,
    ];
    assert!(rt; file.bytes.get(8..22) == Some(segment.as_slice()));
    assert!(rt; has_sizes(&file, 445, 14));
    Ok(())
}

#[test]
fn files_grow_by_four_bytes_a_value(rt: HostRuntime) -> Result<(), Fail> {
    let alloc = rt.alloc();
    assert!(rt; has_sizes(&counted(alloc, 8192)?, 33201, 32770));
    assert!(rt; has_sizes(&counted(alloc, 20000)?, 80433, 80002));
    Ok(())
}

#[test]
fn a_failing_sink_holds_a_part(rt: HostRuntime) -> Result<(), Fail> {
    let alloc = rt.alloc();
    let whole = file_of_four(alloc)?;
    // The last of these calls is the flush, before which the whole was taken.
    for call in 0..9 {
        let file = four_values(alloc, vec![in alloc; call]?)?;
        assert!(rt; is_part(&file, whole.as_slice()));
        assert!(rt; (file.bytes.len() == 449) == (call == 8));
    }
    Ok(())
}
