//! The reader of a file's layout, which is kept where that is asked for.
ghost use Rattle.std.specs.Prelude.{◌≡◌};
ghost use Rattle.std.specs.Arc.{arc_value};
ghost use Rattle.vx_file.specs.KeptReaders.{tag_of_reader, tag_of_footer};

use crate::FileLayoutReader;
use boxcar::slot::{OnceSlot, SlotRule};
use boxcar::tag::{Names, Tag};
use std::alloc::Global;
use std::sync::Arc;
use vx_footer::Footer;

/// The rule of a kept reader: it is one of the layout and the statistics that its place is for.
pub(crate) struct ReaderRule;

impl SlotRule<Arc<FileLayoutReader, Global>> for ReaderRule {
    ghost holds = { λ tag reader. tag_of_reader (arc_value reader) ≡ tag };
}

/// A place for one reader, which is written once.
pub(crate) type ReaderSlot = OnceSlot<Arc<FileLayoutReader, Global>, ReaderRule>;

/// Places are told apart by the layout and the statistics of a footer.
struct ByFooter;

impl Names<Footer> for ByFooter {
    ghost numbers = { λ footer. tag_of_footer footer.content };
}

/// A place for a reader of a footer's layout.
pub(crate) fn slot_for(footer: &Footer) -> ReaderSlot
    ensures { result.tag ≡ tag_of_footer footer.now.content }
{
    let tag = Tag::of::<Footer, ByFooter>(footer);
    OnceSlot::new(&tag)
}
