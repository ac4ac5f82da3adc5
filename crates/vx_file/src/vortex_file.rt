//! Opened files.
ghost use Rattle.std.specs.Prelude.{◌≡◌, [], None, true, false, unwrap_or, IfOk};
ghost use Rattle.std.specs.List.{find};
ghost use Rattle.std.specs.Option.{option_map};
ghost use Rattle.std.specs.Borrow.{Lends, sem};
ghost use Rattle.std.specs.Str.{bytes_eq};
ghost use Rattle.vx_file.specs.contracts.opened_file.VortexFile.{the_row};
ghost use Rattle.vx_data.specs.Dtype.{dtype_view};
ghost use Rattle.vx_data.specs.Layout.{dtype_of, rows_of};

use crate::kept_reader::slot_for;
use crate::{MetadataValue, VortexFile};
use std::alloc::{AllocError, Global};
use vx_base::{ByteBuffer, Sequence};
use vx_data::{DType, VortexSession};
use vx_footer::{FileStatistics, Footer};
use vx_source::SegmentSource;

impl<S: SegmentSource> VortexFile<S> {
    /// A file of this footer, of which no value of the metadata is loaded.
    pub fn new(footer: Footer, source: S, session: VortexSession) -> VortexFile<S>
        ensures footer { result.footer ≡ footer }
        ensures source { result.source ≡ source }
        ensures session { result.session ≡ session }
        ensures metadata { result.metadata ≡ None }
        ensures caching { result.caching ≡ false }
    {
        let reader = slot_for(&footer);
        VortexFile {
            footer,
            source,
            session,
            metadata: None,
            caching: false,
            reader,
        }
    }

    /// The same with the values of the metadata.
    pub(crate) fn with_metadata(self, metadata: Option<Sequence<MetadataValue>>) -> VortexFile<S>
        ensures footer { result.footer ≡ self.footer }
        ensures source { result.source ≡ self.source }
        ensures session { result.session ≡ self.session }
        ensures metadata { result.metadata ≡ metadata }
        ensures caching { result.caching ≡ self.caching }
    {
        let VortexFile {
            footer,
            source,
            session,
            metadata: _old,
            caching,
            reader,
        } = self;
        VortexFile {
            footer,
            source,
            session,
            metadata,
            caching,
            reader,
        }
    }

    /// The same, whose readers of the layout are kept.
    fn keeping_readers(self) -> VortexFile<S>
        ensures footer { result.footer ≡ self.footer }
        ensures source { result.source ≡ self.source }
        ensures session { result.session ≡ self.session }
        ensures metadata { result.metadata ≡ self.metadata }
        ensures caching { result.caching ≡ true }
    {
        let VortexFile {
            footer,
            source,
            session,
            metadata,
            caching: _old,
            reader,
        } = self;
        VortexFile {
            footer,
            source,
            session,
            metadata,
            caching: true,
            reader,
        }
    }

    /// The same, which makes a reader of the layout now and keeps it. Only memory refuses.
    pub fn with_caching(self, alloc: Global) -> Result<VortexFile<S>, AllocError>
        ensures footer { IfOk result (λ f. f.footer ≡ self.footer) }
        ensures source { IfOk result (λ f. f.source ≡ self.source) }
        ensures session { IfOk result (λ f. f.session ≡ self.session) }
        ensures metadata { IfOk result (λ f. f.metadata ≡ self.metadata) }
        ensures caching { IfOk result (λ f. f.caching ≡ true) }
    {
        let file = self.keeping_readers();
        let _reader = file.layout_reader(alloc)?;
        Ok(file)
    }

    /// Whether readers of the layout are kept.
    pub fn is_caching(&self) -> bool
        ensures { result ≡ self.now.caching }
    {
        self.caching
    }

    /// The footer and the source.
    pub(crate) fn into_parts(self) -> (Footer, S)
        ensures footer { result.0 ≡ self.footer }
        ensures source { result.1 ≡ self.source }
    {
        let VortexFile {
            footer,
            source,
            session: _session,
            metadata: _metadata,
            caching: _caching,
            reader: _reader,
        } = self;
        (footer, source)
    }

    /// What the file holds, and where.
    pub fn footer(&self) -> &Footer
        ensures { result.now ≡ self.now.footer }
    {
        &self.footer
    }

    /// The number of rows.
    pub fn row_count(&self) -> u64
        ensures { result ≡ rows_of self.now.footer.content.layout }
    {
        self.footer.row_count()
    }

    /// The type of the rows.
    pub fn dtype(&self) -> &DType
        ensures { dtype_view result.now ≡ dtype_of self.now.footer.content.layout }
    {
        self.footer.dtype()
    }

    /// The statistics, if the file has them.
    pub fn file_stats(&self) -> Option<&FileStatistics>
        ensures { option_map (λ s. s.now) result ≡ self.now.footer.content.statistics }
    {
        self.footer.statistics()
    }

    /// The values of the metadata, in the order of the file; none where they were not loaded.
    pub fn metadata_segments(&self) -> &[MetadataValue]
        ensures { result.now ≡ unwrap_or self.now.metadata [] }
    {
        match &self.metadata {
            Some(values) => values.as_slice(),
            None => &[],
        }
    }

    /// The value under a key; none where the file has no such key, or the values were not loaded.
    pub fn metadata_segment(&self, key: &str) -> Option<&ByteBuffer>
        ensures { option_map (λ v. v.now) result ≡ option_map (λ v. v.value) (find (λ v. bytes_eq v.key key.now) (unwrap_or self.now.metadata [])) }
    {
        let values = self.metadata_segments();
        let value = values.iter().find(|value| value.key.as_str() == key)?;
        Some(&value.value)
    }

    /// The session that opened the file.
    pub fn session(&self) -> &VortexSession
        ensures { result.now ≡ self.now.session }
    {
        &self.session
    }

    /// The source of the segments.
    pub fn segment_source(&mut self) -> &mut S
        ensures* lends { sem 𝓛 (Lends (the_row S.row S.SegmentSource) S.row self.entry result (λ source. record self.old { source = source })) }
        ensures value { result.now ≡ self.old.source }
    {
        &mut self.source
    }

    /// The same file over another source of its segments. A kept reader of the layout is not: the next one is made anew,
    /// and kept where that is asked for.
    pub fn with_segment_source<T: SegmentSource>(self, source: T) -> VortexFile<T>
        ensures footer { result.footer ≡ self.footer }
        ensures source { result.source ≡ source }
        ensures session { result.session ≡ self.session }
        ensures metadata { result.metadata ≡ self.metadata }
        ensures caching { result.caching ≡ self.caching }
    {
        let VortexFile {
            footer,
            source: _old,
            session,
            metadata,
            caching,
            reader: _reader,
        } = self;
        let reader = slot_for(&footer);
        VortexFile {
            footer,
            source,
            session,
            metadata,
            caching,
            reader,
        }
    }
}
