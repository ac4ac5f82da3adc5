//! Readers of layouts with statistics.
ghost use Rattle.std.specs.Prelude.{◌≡◌};
ghost use Rattle.std.specs.List.{All};
ghost use Rattle.vx_rows.specs.LayoutReaders.{tree_of};
ghost use Rattle.vx_prune.specs.KeptAnswers.{tag_of_rows};

use crate::kept_answers::AnswerSlot;
use vx_footer::FileStatistics;
use vx_rows::LayoutReader;

/// Reads the rows of a layout, and skips all of them where the statistics of the file tell that none satisfies. What
/// they tell of the first predicates is kept.
#[derive(Drop)]
pub struct FileStatsLayoutReader {
    pub(crate) child: LayoutReader,
    pub(crate) stats: FileStatistics,
    pub(crate) kept: Vec<AnswerSlot>,
    ghost tagged: { All (λ slot. slot.tag ≡ tag_of_rows (tree_of child) stats) kept.items },
}
