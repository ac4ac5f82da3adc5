//! Answers that are kept by predicate.
ghost use Rattle.std.specs.Prelude.{◌≡◌, IfOk};
ghost use Rattle.std.specs.List.{All};
ghost use Rattle.vx_rows.specs.LayoutReaders.{tree_of};
ghost use Rattle.vx_prune.specs.KeptAnswers.{IsAnswer, tag_of_rows};

use boxcar::slot::{OnceSlot, SlotRule};
use boxcar::tag::{Names, Tag};
use std::alloc::{AllocError, Global};
use vx_footer::FileStatistics;
use vx_rows::{Bound, LayoutReader};

/// How many answers a reader keeps.
const MOST_ANSWERS: usize = 32;

/// Whether the statistics of a file tell that no row satisfies a predicate.
#[derive(Drop)]
pub(crate) struct KeptAnswer {
    pub(crate) bound: Bound,
    pub(crate) is_pruned: bool,
}

/// The rule of kept answers: each is what the statistics tell.
pub(crate) struct AnswerRule;

impl SlotRule<KeptAnswer> for AnswerRule {
    ghost holds = { λ tag answer. IsAnswer tag answer };
}

/// A place for one answer, which is written once.
pub(crate) type AnswerSlot = OnceSlot<KeptAnswer, AnswerRule>;

/// A layout with the statistics of its rows.
#[derive(Drop)]
pub(crate) struct Described {
    pub(crate) child: LayoutReader,
    pub(crate) stats: FileStatistics,
}

/// Answers are told apart by what they are about.
struct ByRows;

impl Names<Described> for ByRows {
    ghost numbers = { λ d. tag_of_rows (tree_of d.child) d.stats };
}

/// Places for answers of one tag.
fn slots_of(alloc: Global, tag: &Tag) -> Result<Vec<AnswerSlot>, AllocError>
    ensures { IfOk result (λ slots. All (λ slot. slot.tag ≡ tag.now.numbers) slots.items) }
{
    let mut slots = Vec::new(alloc);
    for _slot in 0..MOST_ANSWERS {
        slots.push(OnceSlot::new(tag))?;
    }
    Ok(slots)
}

/// Places for answers about the rows of a layout. Only memory refuses.
pub(crate) fn slots_for(alloc: Global, rows: &Described) -> Result<Vec<AnswerSlot>, AllocError>
    ensures { IfOk result (λ slots. All (λ slot. slot.tag ≡ tag_of_rows (tree_of rows.now.child) rows.now.stats) slots.items) }
{
    let tag = Tag::of::<Described, ByRows>(rows);
    Ok(slots_of(alloc, &tag)?)
}
