//! What holds of the chunks of a leaf, however its rows come.
ghost use Rattle.std.specs.Prelude.{◌≡◌, ◌++◌, ℕ, List};
ghost use Rattle.std.specs.List.{AllByRecursion};
ghost use Rattle.vx_rows.specs.Rows.{Rows, rows_len, dtype_of, HasRows};
ghost use Rattle.vx_write.specs.declared.strategy.LeafStrategy.{LeafStrategy as AnyStrategy};
ghost use Rattle.vx_write.specs.Strategies.{HasBlocks};
ghost use Rattle.vx_write.specs.Cutting.{cut, nothing_full, full_chunks, rest, joined, all_pushed, chunks_over, rest_over, IsPush};

/// Cutting what is kept with what comes is cutting all rows: the chunks of a leaf, and the rows that it keeps, are the
/// same however its rows are divided into pushes. Chunks and the rows behind them are all rows, and what is kept fills
/// no chunk.
#[tactic(auto, using(crate::proofs::PushLaws::chunks_same, crate::proofs::PushLaws::rest_same, crate::proofs::PushLaws::all_there, crate::proofs::PushLaws::none_left))]
pub fn pushes_may_be_divided()
    ensures chunks { (s : AnyStrategy) (c : Rows) (pushes : List Rows) → HasBlocks s → HasRows (rows_len c) c → AllByRecursion (IsPush (dtype_of c)) pushes
        → full_chunks s (all_pushed c pushes) ≡ full_chunks s c ++ chunks_over s (rest s c) pushes }
    ensures rest { (s : AnyStrategy) (c : Rows) (pushes : List Rows) → HasBlocks s → HasRows (rows_len c) c → AllByRecursion (IsPush (dtype_of c)) pushes
        → rest s (all_pushed c pushes) ≡ rest_over s (rest s c) pushes }
    ensures all { (s : AnyStrategy) (n : ℕ) (c : Rows) → HasBlocks s → HasRows n c → joined (full_chunks s c) (rest s c) ≡ c }
    ensures none { (s : AnyStrategy) (n : ℕ) (c : Rows) → HasBlocks s → HasRows n c → cut s (rest s c) ≡ nothing_full 0 (cut s c).gathered }
{}
