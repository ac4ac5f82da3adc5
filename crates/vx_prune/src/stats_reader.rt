//! What readers of layouts with statistics answer.
ghost use Rattle.std.specs.Prelude.{◌≡◌, false, replicate, IfOk, IfSome};
ghost use Rattle.vx_data.specs.Dtype.{dtype_view};
ghost use Rattle.vx_data.specs.Layout.{dtype_of, rows_of};
ghost use Rattle.vx_rows.specs.Bounds.{bound_view};
ghost use Rattle.vx_rows.specs.LayoutReaders.{tree_of};
ghost use Rattle.vx_prune.specs.KeptAnswers.{tag_of_rows};
ghost use Rattle.vx_prune.specs.Readers.{layout_of, stats_of, is_pruned, mask_where};

use crate::kept_answers::{AnswerSlot, Described, KeptAnswer, slots_for};
use crate::same_predicate::is_same;
use crate::{FileStatsLayoutReader, can_prune_file_stats};
use std::alloc::{AllocError, Global};
use std::ops::Range;
use vx_data::DType;
use vx_footer::FileStatistics;
use vx_rows::{Bound, LayoutReader, Mask};

/// So many rows that are all false.
fn no_rows(alloc: Global, count: usize) -> Result<Vec<bool>, AllocError>
    ensures { IfOk result (λ bits. bits.items ≡ replicate count false) }
{
    vec![in alloc; false; count]
}

impl FileStatsLayoutReader {
    /// The reader of a whole file, and the statistics of that file. Only memory refuses.
    pub fn new(
        alloc: Global,
        child: LayoutReader,
        file_stats: FileStatistics,
    ) -> Result<FileStatsLayoutReader, AllocError>
        ensures layout { IfOk result (λ r. layout_of r ≡ tree_of child) }
        ensures stats { IfOk result (λ r. stats_of r ≡ file_stats) }
    {
        let rows = Described {
            child,
            stats: file_stats,
        };
        let kept = slots_for(alloc, &rows)?;
        let Described { child, stats } = rows;
        Ok(FileStatsLayoutReader { child, stats, kept })
    }

    /// The statistics of the file.
    pub fn file_stats(&self) -> &FileStatistics
        ensures { result.now ≡ stats_of self.now }
    {
        &self.stats
    }

    /// The type of the rows.
    pub fn dtype(&self) -> &DType
        ensures { dtype_view result.now ≡ dtype_of (layout_of self.now) }
    {
        self.child.dtype()
    }

    /// The number of rows.
    pub fn row_count(&self) -> u64
        ensures { result ≡ rows_of (layout_of self.now) }
    {
        self.child.row_count()
    }

    /// What the statistics tell of a predicate.
    fn look(&self, bound: &Bound) -> bool
        ensures { result ≡ is_pruned (bound_view bound.now).0 self.now }
    {
        can_prune_file_stats(bound, self.row_count(), &self.stats, self.child.dtype())
    }

    /// The same, and keeps it in a place that is free. Without memory it is not kept.
    fn look_and_keep(&self, alloc: Global, bound: &Bound, slot: &AnswerSlot) -> bool
        requires { slot.now.tag ≡ tag_of_rows (layout_of self.now) (stats_of self.now) }
        ensures { result ≡ is_pruned (bound_view bound.now).0 self.now }
    {
        let is_pruned = self.look(bound);
        if let Ok(bound) = bound.share(alloc) {
            let _ = slot.set(KeptAnswer { bound, is_pruned });
        }
        is_pruned
    }

    /// What one place tells of a predicate: nothing where it has the answer of another.
    fn answer_in(&self, alloc: Global, bound: &Bound, slot: &AnswerSlot) -> Option<bool>
        requires { slot.now.tag ≡ tag_of_rows (layout_of self.now) (stats_of self.now) }
        ensures { IfSome result (λ answer. answer ≡ is_pruned (bound_view bound.now).0 self.now) }
    {
        match slot.get() {
            Some(kept) => {
                if is_same(kept.bound.predicate(), bound.predicate()) {
                    Some(kept.is_pruned)
                } else {
                    None
                }
            }
            None => Some(self.look_and_keep(alloc, bound, slot)),
        }
    }

    /// What the statistics tell of a predicate, by the answer that is kept, if one is.
    fn is_skipped(&self, alloc: Global, bound: &Bound) -> bool
        ensures { result ≡ is_pruned (bound_view bound.now).0 self.now }
    {
        for slot in &self.kept {
            if let Some(answer) = self.answer_in(alloc, bound, slot) {
                return answer;
            }
        }
        self.look(bound)
    }

    /// The rows of a range that a predicate may be true of, among those of a mask: none where the file is skipped,
    /// else the mask itself. What the statistics tell of the predicate is kept for the next time. Only memory refuses.
    pub fn pruning_evaluation(
        &self,
        alloc: Global,
        row_range: Range<u64>,
        bound: &Bound,
        mask: Mask,
    ) -> Result<Mask, AllocError>
        ensures { IfOk result (λ rows. rows ≡ mask_where (is_pruned (bound_view bound.now).0 self.now) mask) }
    {
        if self.is_skipped(alloc, bound) {
            let bits = no_rows(alloc, mask.len())?;
            return Ok(Mask::new(bits));
        }
        Ok(self.child.pruning_evaluation(row_range, bound, mask))
    }
}
