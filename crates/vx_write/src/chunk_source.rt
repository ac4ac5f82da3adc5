//! Where chunks of rows come from.
ghost use Rattle.std.specs.Prelude.{◌≡◌, map};
ghost use Rattle.vx_rows.specs.Rows.{column_view};
ghost use Rattle.vx_write.specs.ChunkSources.{ChunkState, ChunkCause, SameChunks, VecChunksState, chunks_state};

use std::alloc::{AllocError, Global};
use std::collections::VecDeque;
use std::marker::Model;
use thiserror::Error;
use vx_rows::Column;

/// Why a chunk did not come.
#[derive(Clone, Copy, Debug, PartialEq, Eq, Error)]
pub enum ChunkError {
    /// The source failed.
    #[error("the chunks could not be read")]
    Failed,
    /// Memory ran out.
    #[error("out of memory")]
    OutOfMemory,
}

impl From<AllocError> for ChunkError {
    ghost use Rattle.std.specs.Prelude.{◌≡◌};
    ghost use Rattle.vx_write.specs.declared.chunk_source.ChunkError.TheVariants.{OutOfMemory};

    ghost from_gives = { λ _ e. e ≡ OutOfMemory };

    fn from(_error: AllocError) -> ChunkError {
        ChunkError::OutOfMemory
    }
}

/// A source of chunks of rows.
pub trait ChunkSource: Sized + Drop {
    // What the source tells.
    ghost state: { Self → ChunkState };

    /// The next chunk, or none at the end.
    fn next_chunk(&mut self, alloc: Global) -> Result<Option<Column>, ChunkError>
        ensures cause { ChunkCause (state self.old) (state self.new) result }
        ensures same { SameChunks (state self.old) (state self.new) };
}

/// Chunks in memory. It tells what is left, and fails at chosen calls.
#[derive(Drop)]
pub struct VecChunks {
    chunks: VecDeque<Column>,
    fail: Vec<u64>,
    calls: u64,
    faults: u64,
}

impl Model for VecChunks {
    ghost use Rattle.std.specs.Prelude.{map};
    ghost use Rattle.vx_rows.specs.Rows.{column_view};
    ghost use Rattle.std.specs.Coded.{codes};
    ghost use Rattle.vx_rows.specs.RowsCode.{rows_code};
    ghost use Rattle.vx_write.specs.ChunkSources.{VecChunksState};

    ghost Value = { VecChunksState };

    ghost coded = { Prim.hlevel (codes, rows_code) };

    ghost view = { λ s. record { rest = map column_view s.chunks.items; fail = s.fail.items; calls = s.calls; faults = s.faults } };
}

impl VecChunks {
    /// These chunks. The calls at these places, from 0, fail; with no place it never fails.
    pub fn new(chunks: Vec<Column>, fail: Vec<u64>) -> VecChunks
        ensures { result ≡ record { rest = map column_view chunks.items; fail = fail.items; calls = 0; faults = 0 } }
    {
        VecChunks {
            chunks: VecDeque::from_vec(chunks),
            fail,
            calls: 0,
            faults: 0,
        }
    }
}

impl ChunkSource for VecChunks {
    ghost state = { chunks_state };

    fn next_chunk(&mut self, alloc: Global) -> Result<Option<Column>, ChunkError> {
        let _ = alloc;
        let place = self.calls;
        self.calls = place.saturating_add(1);
        if self.fail.contains(&place) {
            self.faults = self.faults.saturating_add(1);
            return Err(ChunkError::Failed);
        }
        Ok(self.chunks.pop_front())
    }
}
