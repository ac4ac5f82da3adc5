//! Readers of a file's layout, and where its segments are.
ghost use Rattle.std.specs.Prelude.{◌≡◌, IfOk};
ghost use Rattle.std.specs.Arc.{arc_value};
ghost use Rattle.vx_footer.specs.Footers.{segment_table};
ghost use Rattle.vx_file.specs.KeptReaders.{tag_of_footer};
ghost use Rattle.vx_file.specs.LayoutReaders.{layout_in, statistics_in};

use crate::VortexFile;
use crate::kept_reader::ReaderSlot;
use crate::statistics::copied;
use std::alloc::{AllocError, Global};
use std::sync::Arc;
use vx_base::SegmentSpec;
use vx_data::Layout;
use vx_footer::Footer;
use vx_prune::FileStatsLayoutReader;
use vx_rows::LayoutReader;
use vx_source::SegmentSource;

/// A reader of a file's layout, with statistics where the file has them.
#[derive(Drop)]
pub enum FileLayoutReader {
    Plain(LayoutReader),
    Stats(FileStatsLayoutReader),
}

/// The layout of a file, and every entry of its segment table in order: the segments of data, and behind them those of
/// the metadata.
#[derive(Drop)]
pub struct ScanFile<'a> {
    pub layout: &'a Layout,
    pub locations: Vec<SegmentSpec>,
}

/// A reader of the layout of a footer.
fn reader_of(alloc: Global, footer: &Footer) -> Result<FileLayoutReader, AllocError>
    ensures layout { IfOk result (λ r. layout_in r ≡ footer.now.content.layout) }
    ensures statistics { IfOk result (λ r. statistics_in r ≡ footer.now.content.statistics) }
{
    let plain = LayoutReader::new(footer.layout().share(alloc)?);
    match footer.statistics() {
        None => Ok(FileLayoutReader::Plain(plain)),
        Some(statistics) => {
            let statistics = copied(alloc, statistics)?;
            let reader = FileStatsLayoutReader::new(alloc, plain, statistics)?;
            Ok(FileLayoutReader::Stats(reader))
        }
    }
}

/// A reader that can have several owners.
fn shared_reader_of(
    alloc: Global,
    footer: &Footer,
) -> Result<Arc<FileLayoutReader, Global>, AllocError>
    ensures layout { IfOk result (λ r. layout_in (arc_value r) ≡ footer.now.content.layout) }
    ensures statistics { IfOk result (λ r. statistics_in (arc_value r) ≡ footer.now.content.statistics) }
{
    let reader = reader_of(alloc, footer)?;
    Ok(Arc::new(alloc, reader)?)
}

/// The reader that a place holds, or else a new one, which it then holds. While another thread writes the place, the
/// new one is not kept.
fn kept_reader(
    alloc: Global,
    footer: &Footer,
    slot: &ReaderSlot,
) -> Result<Arc<FileLayoutReader, Global>, AllocError>
    requires { slot.now.tag ≡ tag_of_footer footer.now.content }
    ensures layout { IfOk result (λ r. layout_in (arc_value r) ≡ footer.now.content.layout) }
    ensures statistics { IfOk result (λ r. statistics_in (arc_value r) ≡ footer.now.content.statistics) }
{
    if let Some(reader) = slot.get() {
        return Ok(Arc::try_clone(reader)?);
    }
    let reader = shared_reader_of(alloc, footer)?;
    let kept = Arc::try_clone(&reader)?;
    let _ = slot.set(kept);
    Ok(reader)
}

impl<S: SegmentSource> VortexFile<S> {
    /// A reader of the layout, with statistics exactly where the file has them: the one that is kept, where readers are
    /// kept. Only memory refuses.
    pub fn layout_reader(&self, alloc: Global) -> Result<Arc<FileLayoutReader, Global>, AllocError>
        ensures layout { IfOk result (λ r. layout_in (arc_value r) ≡ self.now.footer.content.layout) }
        ensures statistics { IfOk result (λ r. statistics_in (arc_value r) ≡ self.now.footer.content.statistics) }
    {
        if self.caching {
            kept_reader(alloc, &self.footer, &self.reader)
        } else {
            shared_reader_of(alloc, &self.footer)
        }
    }

    /// The layout, and where each segment is. Only memory refuses.
    pub fn scan_file(&self, alloc: Global) -> Result<ScanFile<'_>, AllocError>
        ensures layout { IfOk result (λ f. f.layout.now ≡ self.now.footer.content.layout) }
        ensures locations { IfOk result (λ f. f.locations.items ≡ segment_table self.now.footer.content) }
    {
        let footer = self.footer();
        let locations = Vec::from_slice(alloc, footer.segment_specs_with_metadata())?;
        Ok(ScanFile {
            layout: footer.layout(),
            locations,
        })
    }
}
