//! A file of rows in memory.
ghost use Rattle.vx_data.specs.Dtype.{dtype_view};
ghost use Rattle.vx_commands.specs.MadeFiles.{MakesFile};
ghost use Rattle.vx_generate.specs.Tables.{IsTable};
ghost use Rattle.vx_rows.specs.Rows.{column_view};

use crate::failure::Failure;
use std::alloc::Global;
use std::slice;
use vx_base::MemSink;
use vx_data::DType;
use vx_footer::WriteError;
use vx_rows::Column;
use vx_write::{VortexWriteOptions, WriteSummary, write_rows};

/// A file that was written to memory: its bytes, and what the writer tells of it.
#[derive(Drop)]
pub struct MadeFile {
    pub bytes: Vec<u8>,
    pub summary: WriteSummary,
}

impl MadeFile {
    /// The file of rows of a type, which are pushed as one chunk. Where a check refuses it, nothing is kept.
    pub(crate) fn write<'a>(
        alloc: Global,
        options: VortexWriteOptions,
        dtype: DType,
        rows: &Column,
    ) -> Result<MadeFile, Failure<'a>>
        requires { IsTable (dtype_view dtype) (column_view rows.now) }
        ensures { MakesFile options (dtype_view dtype) (column_view rows.now) result }
    {
        let mut out = MemSink::new(alloc, Vec::new(alloc));
        match write_rows(alloc, options, &mut out, dtype, slice::from_ref(rows)) {
            Ok(summary) => Ok(MadeFile {
                bytes: out.into_bytes(),
                summary,
            }),
            Err(WriteError::OutOfMemory) => Err(Failure::OutOfMemory),
            // No call of the sink fails.
            Err(WriteError::WriteFault) => unreachable!(),
            Err(error) => Err(Failure::Unwritten(error)),
        }
    }
}
