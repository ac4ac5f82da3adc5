//! Files whose chunks come from a source, with ample memory.
use std::alloc::Global;
use std::test::Fail;
use vx_base::MemSink;
use vx_data::{DType, PType, VortexSession};
use vx_footer::WriteError;
use vx_rows::Column;
use vx_write::{VecChunks, WriteOptionsSessionExt, write_rows};

// The numbers 1 to 4 in two chunks.
fn chunks(alloc: Global) -> Result<Vec<Column>, Fail> {
    let first = Column::ints(alloc, PType::I32, &[Some(1), Some(2)], false)?;
    let second = Column::ints(alloc, PType::I32, &[Some(3), Some(4)], false)?;
    Ok(vec![in alloc; first, second]?)
}

// The file of those chunks, from a source of which these calls fail, and why it was not written.
fn streamed(alloc: Global, fail: Vec<u64>) -> Result<(Vec<u8>, Option<WriteError>), Fail> {
    let options = VortexSession::new(alloc)?.write_options(alloc)?;
    let mut out = MemSink::new(alloc, Vec::new(alloc));
    let mut source = VecChunks::new(chunks(alloc)?, fail);
    let dtype = DType::Int(PType::I32, false);
    let refused = match options.write(alloc, &mut out, dtype, &mut source) {
        Ok(_) => None,
        Err(error) => Some(error),
    };
    Ok((out.into_bytes(), refused))
}

#[test]
fn a_source_gives_the_file_of_its_chunks(rt: HostRuntime) -> Result<(), Fail> {
    let alloc = rt.alloc();
    let options = VortexSession::new(alloc)?.write_options(alloc)?;
    let mut out = MemSink::new(alloc, Vec::new(alloc));
    let dtype = DType::Int(PType::I32, false);
    write_rows(alloc, options, &mut out, dtype, &chunks(alloc)?)?;
    let whole = out.into_bytes();
    // The third call gives none, and no call follows it.
    for call in 0..5 {
        let (bytes, refused) = streamed(alloc, vec![in alloc; call]?)?;
        if call < 3 {
            assert_eq!(rt; refused, Some(WriteError::ChunkFault));
            assert!(rt; bytes.len() < whole.len());
            assert_eq!(rt; whole.get(..bytes.len()).ok_or("longer")?, bytes.as_slice());
        } else {
            assert_eq!(rt; refused, None);
            assert_eq!(rt; bytes.as_slice(), whole.as_slice());
        }
    }
    Ok(())
}
