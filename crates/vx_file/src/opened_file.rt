//! What an opened file holds.
ghost use Rattle.std.specs.Prelude.{◌≡◌};
ghost use Rattle.vx_file.specs.KeptReaders.{tag_of_footer};

use crate::MetadataValue;
use crate::kept_reader::ReaderSlot;
use vx_base::Sequence;
use vx_data::VortexSession;
use vx_footer::Footer;
use vx_source::SegmentSource;

/// An opened file: its footer, the source of its segments, the session that opened it, the values of its metadata,
/// where they were loaded, and the reader of its layout, where one is kept.
#[derive(Drop)]
pub struct VortexFile<S: SegmentSource> {
    pub(crate) footer: Footer,
    pub(crate) source: S,
    pub(crate) session: VortexSession,
    pub(crate) metadata: Option<Sequence<MetadataValue>>,
    pub(crate) caching: bool,
    pub(crate) reader: ReaderSlot,
    ghost named: { reader.tag ≡ tag_of_footer footer.content },
}
