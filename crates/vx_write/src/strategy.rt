//! How the rows of types are laid out in a file.
ghost use Rattle.std.specs.Prelude.{◌≡◌, ◌≤◌, ◌++◌, ◌∷◌, [], IfOk};
ghost use Rattle.vx_data.specs.Dtype.{dtype_view};
ghost use Rattle.vx_write.specs.Strategies.{HasBlocks, AllHaveBlocks, default_settings, built};

use std::alloc::{AllocError, Global};
use std::marker::Model;
use vx_base::Alignment;
use vx_data::{FieldPath, VortexSession};

/// How a chunk is written: as one segment of this alignment.
#[derive(Clone, Copy, Debug, PartialEq, Eq)]
pub struct FlatStrategy {
    pub alignment: Alignment,
}

/// How the rows of a leaf are cut into chunks: not at all, or into blocks of so many rows, which are gathered until
/// their sizes sum up to the target. Without a target each block is a chunk.
#[derive(Clone, Copy, Debug, PartialEq, Eq)]
pub enum LeafStrategy {
    Whole,
    Blocks { rows: usize, target: Option<u64> },
}

/// Which columns are leaves, and how the rows of each are cut.
#[derive(Drop)]
pub struct LayoutStrategy {
    default: LeafStrategy,
    flat: FlatStrategy,
    rules: Vec<(FieldPath, LeafStrategy)>,
}

impl Model for LayoutStrategy {
    ghost use Rattle.vx_write.specs.Strategies.{Strategy, HasBlocks, AllHaveBlocks};

    ghost Value = { Strategy };

    ghost view = { λ a. record { default = a.default; alignment = a.flat.alignment; rules = a.rules.items } };

    ghost invariant = { λ a. HasBlocks a.default × AllHaveBlocks a.rules.items };
}

impl LayoutStrategy {
    /// How a chunk is written.
    pub fn flat(&self) -> FlatStrategy
        ensures { result.alignment ≡ self.now.alignment }
    {
        self.flat
    }

    /// The strategy of a leaf of which no rule speaks.
    pub(crate) fn default(&self) -> LeafStrategy
        ensures value { result ≡ self.now.default }
        ensures sound { HasBlocks self.now.default }
    {
        self.default
    }

    /// What is said of single columns.
    pub(crate) fn rules(&self) -> &[(FieldPath, LeafStrategy)]
        ensures value { result.now ≡ self.now.rules }
        ensures sound { AllHaveBlocks self.now.rules }
    {
        &self.rules
    }
}

/// Makes a `LayoutStrategy`.
#[derive(Drop)]
pub struct WriteStrategyBuilder {
    block_rows: usize,
    block_bytes: Option<u64>,
    flat: FlatStrategy,
    rules: Vec<(FieldPath, LeafStrategy)>,
}

impl Model for WriteStrategyBuilder {
    ghost use Rattle.std.specs.Prelude.{◌≤◌};
    ghost use Rattle.vx_write.specs.Strategies.{Settings, AllHaveBlocks};

    ghost Value = { Settings };

    ghost view = { λ a. record { block_rows = a.block_rows; block_bytes = a.block_bytes; alignment = a.flat.alignment; rules = a.rules.items } };

    ghost invariant = { λ a. (1 ≤ a.block_rows) × AllHaveBlocks a.rules.items };
}

/// The alignment of segments of which nothing else is said.
fn default_alignment() -> Alignment
    ensures { result ≡ 3 }
{
    match Alignment::new(3) {
        Ok(alignment) => alignment,
        Err(_) => unreachable!(),
    }
}

impl WriteStrategyBuilder {
    /// Blocks of 8192 rows, gathered to a mebibyte, in segments at multiples of 8 bytes.
    pub fn from_session(
        alloc: Global,
        _session: &VortexSession,
    ) -> Result<WriteStrategyBuilder, AllocError>
        ensures { IfOk result (λ builder. builder ≡ default_settings) }
    {
        Ok(WriteStrategyBuilder {
            block_rows: 8192,
            block_bytes: Some(1_048_576),
            flat: FlatStrategy {
                alignment: default_alignment(),
            },
            rules: Vec::new(alloc),
        })
    }

    /// Cuts leaves of which nothing else is said into blocks of so many rows.
    pub fn with_row_block_size(mut self, rows: usize) -> WriteStrategyBuilder
        requires { 1 ≤ rows }
        ensures { result ≡ record self { block_rows = rows } }
    {
        self.block_rows = rows;
        self
    }

    /// Gathers the blocks of leaves of which nothing else is said to chunks of so many bytes, or not at all.
    pub fn with_data_block_target_bytes(mut self, target_bytes: Option<u64>) -> WriteStrategyBuilder
        ensures { result ≡ record self { block_bytes = target_bytes } }
    {
        self.block_bytes = target_bytes;
        self
    }

    /// Makes the column of a path a leaf of its own strategy. Of equal paths the last one counts. Only memory refuses.
    pub fn with_field_writer(
        mut self,
        _alloc: Global,
        field: FieldPath,
        writer: LeafStrategy,
    ) -> Result<WriteStrategyBuilder, AllocError>
        requires { HasBlocks writer }
        ensures { IfOk result (λ builder. builder ≡ record self { rules = self.rules ++ (field, writer) ∷ [] }) }
    {
        self.rules.push((field, writer))?;
        Ok(self)
    }

    /// Writes chunks so.
    pub fn with_flat_strategy(mut self, flat: FlatStrategy) -> WriteStrategyBuilder
        ensures { result ≡ record self { alignment = flat.alignment } }
    {
        self.flat = flat;
        self
    }

    /// The strategy.
    pub fn build(self) -> LayoutStrategy
        ensures { result ≡ built self }
    {
        LayoutStrategy {
            default: LeafStrategy::Blocks {
                rows: self.block_rows,
                target: self.block_bytes,
            },
            flat: self.flat,
            rules: self.rules,
        }
    }
}
