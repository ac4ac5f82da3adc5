//! Predicates as words spell them, and files that can be skipped, since no row satisfies one.
#![tactic(auto)]

mod binder;
mod file_stats_layout_reader;
mod kept_answers;
mod known;
mod literal;
mod node;
mod order;
mod predicate_words;
mod pruning;
mod same_predicate;
mod sharing;
mod stats_reader;

pub use binder::FileStatsBinder;
pub use file_stats_layout_reader::FileStatsLayoutReader;
pub use predicate_words::read_predicate;
pub use pruning::{can_prune_file_stats, one_comparison_is_exact, pruning_is_sound};
pub use sharing::may_be_shared;
