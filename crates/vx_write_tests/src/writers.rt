//! Writers that chunks are pushed to, with ample memory.
use std::alloc::Global;
use std::test::Fail;
use vx_base::MemSink;
use vx_data::{DType, PType, VortexSession};
use vx_footer::WriteError;
use vx_rows::{Column, read_rows};
use vx_write::{VecChunks, VortexWriteOptions, WriteStrategyBuilder};

// Options by which each two rows are a segment of their own.
fn options(alloc: Global) -> Result<VortexWriteOptions, Fail> {
    let session = VortexSession::new(alloc)?;
    let builder = WriteStrategyBuilder::from_session(alloc, &session)?;
    let builder = builder.with_row_block_size(2);
    let strategy = builder.with_data_block_target_bytes(None).build();
    Ok(VortexWriteOptions::new(alloc, session)?.with_strategy(strategy))
}

// The numbers 1 and 3, and a null between them.
fn numbers(alloc: Global) -> Result<Column, Fail> {
    let dtype = DType::Int(PType::I32, true);
    match read_rows(alloc, &dtype, "1\n~\n3\n") {
        Ok(column) => Ok(column),
        Err(_) => Err(Fail::from("no rows")),
    }
}

#[test]
fn a_writer_takes_chunks_of_its_type_alone(rt: HostRuntime) -> Result<(), Fail> {
    let alloc = rt.alloc();
    let options = options(alloc)?;
    let tracker = options.buffered_bytes_tracker()?;
    let out = MemSink::new(alloc, Vec::new(alloc));
    let dtype = DType::Int(PType::I32, true);
    let mut writer = options.writer(alloc, out, dtype)?;
    let chunk = numbers(alloc)?;
    writer.push(alloc, &chunk)?;
    // The magic, four zeros, and the array of two rows; the third row is held back.
    assert_eq!(rt; writer.bytes_written(), 20);
    assert_eq!(rt; writer.buffered_bytes(), 5);
    assert_eq!(rt; tracker.get(), 5);
    let (out, finished) = writer.finish(alloc);
    let summary = finished?;
    assert_eq!(rt; summary.row_count(), 3);
    assert_eq!(rt; summary.size(), out.into_bytes().len() as u64);
    Ok(())
}

#[test]
fn a_refused_chunk_before_the_first_byte_changes_nothing(rt: HostRuntime) -> Result<(), Fail> {
    let alloc = rt.alloc();
    let out = MemSink::new(alloc, Vec::new(alloc));
    let mut writer = options(alloc)?.writer(alloc, out, DType::Int(PType::I32, true))?;
    let other = Column::ints(alloc, PType::I64, &[Some(1)], true)?;
    assert_eq!(rt;
        writer.push(alloc, &other).err(),
        Some(WriteError::ChunkDType)
    );
    writer.push(alloc, &numbers(alloc)?)?;
    // From the first byte on a refusal leaves the writer broken.
    assert_eq!(rt;
        writer.push(alloc, &other).err(),
        Some(WriteError::ChunkDType)
    );
    let (out, finished) = writer.finish(alloc);
    assert!(rt; matches!(finished, Err(WriteError::WriterFailed)));
    assert_eq!(rt; out.into_bytes().len(), 20);
    Ok(())
}

#[test]
fn a_writer_whose_sink_failed_goes_on_no_more(rt: HostRuntime) -> Result<(), Fail> {
    let alloc = rt.alloc();
    let out = MemSink::new(alloc, vec![in alloc; 1]?);
    let dtype = DType::Int(PType::I32, true);
    let mut writer = options(alloc)?.blocking().writer(alloc, out, dtype)?;
    let chunk = numbers(alloc)?;
    assert_eq!(rt;
        writer.push(alloc, &chunk).err(),
        Some(WriteError::WriteFault)
    );
    assert_eq!(rt;
        writer.push(alloc, &chunk).err(),
        Some(WriteError::WriterFailed)
    );
    let (out, finished) = writer.finish(alloc);
    assert!(rt; matches!(finished, Err(WriteError::WriterFailed)));
    let bytes = out.into_bytes();
    assert_eq!(rt;
        b"VTXF\0\0\0\0".get(..bytes.len()).ok_or("longer")?,
        bytes.as_slice()
    );
    Ok(())
}

#[test]
fn chunks_of_a_source_are_pushed_until_it_fails(rt: HostRuntime) -> Result<(), Fail> {
    let alloc = rt.alloc();
    // The place of the call that fails, and how many rows the file has where none does.
    for (fails, wanted) in [(None, Some(6)), (Some(0), Some(0)), (Some(1), None)] {
        let mut places = Vec::new(alloc);
        if let Some(place) = fails {
            places.push(place)?;
        }
        let pair = vec![in alloc; numbers(alloc)?, numbers(alloc)?]?;
        let mut chunks = VecChunks::new(pair, places);
        let out = MemSink::new(alloc, Vec::new(alloc));
        let mut writer = options(alloc)?.writer(alloc, out, DType::Int(PType::I32, true))?;
        let fault = fails.map(|_| WriteError::ChunkFault);
        assert!(rt; writer.push_stream(alloc, &mut chunks).err() == fault);
        let (_, finished) = writer.finish(alloc);
        assert!(rt; finished.ok().map(|summary| summary.row_count()) == wanted);
    }
    Ok(())
}
