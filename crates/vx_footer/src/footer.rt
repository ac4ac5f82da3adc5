//! The footer of a file.
ghost use Rattle.std.specs.Prelude.{◌≡◌, ◌++◌, [], IfOk, IfSome, Some, map, string_bytes, is_ok, position};
ghost use Rattle.std.specs.List.{list_all};
ghost use Rattle.std.specs.Option.{option_map};
ghost use Rattle.std.specs.Str.{bytes_eq};
ghost use Rattle.vx_data.specs.Dtype.{dtype_view};
ghost use Rattle.vx_data.specs.Layout.{dtype_of, rows_of};
ghost use Rattle.vx_data.specs.StatsTable.{columns_of};
ghost use Rattle.vx_footer.specs.Footers.{metadata_specs, segment_table, segment_of_key};
ghost use Rattle.vx_footer.specs.Opening.{ends_within as ends_in};

use crate::error::PastEnd;
use crate::{FileStatistics, FileVersion, PostscriptMetadata};
use std::alloc::{AllocError, Global};
use std::marker::Model;
use std::sync::Arc;
use vx_base::{SegmentSpec, Sequence};
use vx_data::{DType, Layout};

/// The rows of a file: their statistics and layout, and the ids of arrays.
#[derive(Drop)]
pub(crate) struct Rows {
    stats: Option<FileStatistics>,
    tree: Layout,
    ids: Vec<String>,
}

/// The segments of a file: those of data, and behind them those of the metadata.
#[derive(Drop)]
pub(crate) struct Segments {
    entries: Sequence<PostscriptMetadata>,
    table: Vec<SegmentSpec>,
    data_count: usize,
}

/// What a file holds and where: the layout of its rows, its segments, statistics and metadata, and the
/// ids of arrays. Its parts are shared with other owners.
#[derive(Drop)]
pub struct Footer {
    rows: Arc<Rows, Global>,
    segments: Arc<Segments, Global>,
    format: FileVersion,
    byte_size: Option<usize>,
}

impl Model for Footer {
    ghost use Rattle.std.specs.Coded.{codes};
    ghost use Rattle.vx_footer.specs.DtypeCode.{dtype_code};
    ghost use Rattle.vx_data.specs.Codes.{tree_code};
    ghost use Rattle.std.specs.Prelude.{◌≡◌, ◌≤◌, length, map, string_bytes, take, drop};
    ghost use Rattle.std.specs.Arc.{arc_value};
    ghost use Rattle.vx_footer.specs.Footers.{FooterValue, metadata_specs};

    ghost Value = { FooterValue };

    ghost coded = { Prim.hlevel (codes, dtype_code, tree_code) };

    ghost view = { λ a. let r = arc_value a.rows in let s = arc_value a.segments in record {
      content = record {
        version = a.format;
        layout = r.tree;
        segments = take s.data_count s.table.items;
        statistics = r.stats;
        metadata = s.entries;
        array_ids = map string_bytes r.ids.items;
      };
      approx_byte_size = a.byte_size;
    } };

    ghost invariant = { λ a. let s = arc_value a.segments in
        (s.data_count ≤ length s.table.items) × (drop s.data_count s.table.items ≡ metadata_specs s.entries) };
}

/// The segments of data, and behind them those of the metadata.
#[tactic(auto, using(crate::proofs::Lists::next_spec))]
fn table_of(
    segments: Vec<SegmentSpec>,
    metadata: &[PostscriptMetadata],
) -> Result<Vec<SegmentSpec>, AllocError>
    ensures { IfOk result (λ table. table.items ≡ segments.items ++ metadata_specs metadata.now) }
{
    let mut table = segments;
    for at in 0..metadata.len() {
        table.push(SegmentSpec::from(&metadata[at].segment))?;
    }
    Ok(table)
}

/// Whether a segment ends within a file of this size.
fn ends_within(spec: &SegmentSpec, size: u64) -> bool
    ensures { result ≡ ends_in size spec.now }
{
    spec.offset <= size && u64::from(spec.length) <= size - spec.offset
}

/// Whether each segment ends within a file of this size.
fn all_end_within(specs: &[SegmentSpec], size: u64) -> bool
    ensures { result ≡ list_all (ends_in size) specs.now }
{
    specs.iter().all(|spec| ends_within(spec, size))
}

/// The place of the first entry with this key.
fn place_of(entries: &[PostscriptMetadata], key: &str) -> Option<usize>
    ensures { result ≡ position (λ m. bytes_eq m.key key.now) entries.now }
{
    entries.iter().position(|entry| entry.key.as_str() == key)
}

impl Footer {
    /// The footer of these parts.
    #[tactic(auto, using(crate::proofs::Lists::front_parts, crate::proofs::Lists::back_parts))]
    pub(crate) fn made(
        alloc: Global,
        version: FileVersion,
        layout: Layout,
        segments: Vec<SegmentSpec>,
        statistics: Option<FileStatistics>,
        metadata: Sequence<PostscriptMetadata>,
        array_ids: Vec<String>,
    ) -> Result<Footer, AllocError>
        ensures { IfOk result (λ footer. footer ≡ record {
          content = record {
            version = version;
            layout = layout;
            segments = segments.items;
            statistics = statistics;
            metadata = metadata;
            array_ids = map string_bytes array_ids.items;
          };
          approx_byte_size = None;
        }) }
    {
        let data_count = segments.len();
        let table = table_of(segments, metadata.as_slice())?;
        let rows = Rows {
            stats: statistics,
            tree: layout,
            ids: array_ids,
        };
        let segments = Segments {
            entries: metadata,
            table,
            data_count,
        };
        Ok(Footer {
            rows: Arc::new(alloc, rows)?,
            segments: Arc::new(alloc, segments)?,
            format: version,
            byte_size: None,
        })
    }

    /// The footer with this metadata in a file of this version, where it takes so many bytes. Its rows are
    /// shared.
    #[tactic(auto, using(crate::proofs::Lists::front_parts, crate::proofs::Lists::back_parts))]
    pub(crate) fn with_metadata(
        &self,
        alloc: Global,
        version: FileVersion,
        metadata: Sequence<PostscriptMetadata>,
        byte_size: usize,
    ) -> Result<Footer, AllocError>
        ensures { IfOk result (λ footer. footer ≡ record {
          content = record self.now.content { version = version; metadata = metadata };
          approx_byte_size = Some byte_size;
        }) }
    {
        let data = Vec::from_slice(alloc, self.segment_map())?;
        let data_count = data.len();
        let segments = Segments {
            table: table_of(data, metadata.as_slice())?,
            entries: metadata,
            data_count,
        };
        Ok(Footer {
            rows: Arc::try_clone(&self.rows)?,
            segments: Arc::new(alloc, segments)?,
            format: version,
            byte_size: Some(byte_size),
        })
    }

    /// The footer of a file of the first version without metadata. Statistics are of the layout's type.
    pub fn new(
        alloc: Global,
        root_layout: Layout,
        segments: Vec<SegmentSpec>,
        statistics: Option<FileStatistics>,
        array_ids: Vec<String>,
    ) -> Result<Footer, AllocError>
        requires { IfSome statistics (λ s. s.dtypes ≡ columns_of (dtype_of root_layout)) }
        ensures { IfOk result (λ footer. footer ≡ record {
          content = record {
            version = FileVersion.V1;
            layout = root_layout;
            segments = segments.items;
            statistics = statistics;
            metadata = [];
            array_ids = map string_bytes array_ids.items;
          };
          approx_byte_size = None;
        }) }
    {
        let metadata = Sequence::new(alloc);
        Footer::made(
            alloc,
            FileVersion::V1,
            root_layout,
            segments,
            statistics,
            metadata,
            array_ids,
        )
    }

    /// The same footer, which takes so many bytes in a file.
    pub(crate) fn with_byte_size(self, byte_size: usize) -> Footer
        ensures { result ≡ record self { approx_byte_size = Some byte_size } }
    {
        let mut footer = self;
        footer.byte_size = Some(byte_size);
        footer
    }

    /// The version of the file.
    pub fn version(&self) -> FileVersion
        ensures { result ≡ self.now.content.version }
    {
        self.format
    }

    /// How the rows are laid out.
    pub fn layout(&self) -> &Layout
        ensures { result.now ≡ self.now.content.layout }
    {
        &self.rows.tree
    }

    /// The type of the rows.
    pub fn dtype(&self) -> &DType
        ensures { dtype_view result.now ≡ dtype_of self.now.content.layout }
    {
        self.layout().dtype()
    }

    /// How many rows there are.
    pub fn row_count(&self) -> u64
        ensures { result ≡ rows_of self.now.content.layout }
    {
        self.layout().row_count()
    }

    /// The data segments, in order of their numbers.
    pub fn segment_map(&self) -> &[SegmentSpec]
        ensures { result.now ≡ self.now.content.segments }
    {
        &self.segments.table[..self.segments.data_count]
    }

    /// The data segments, and behind them those of the metadata.
    #[tactic(auto, using(crate::proofs::Lists::whole_table))]
    pub fn segment_specs_with_metadata(&self) -> &[SegmentSpec]
        ensures { result.now ≡ segment_table self.now.content }
    {
        &self.segments.table
    }

    /// The statistics of the file.
    pub fn statistics(&self) -> Option<&FileStatistics>
        ensures { option_map (λ s. s.now) result ≡ self.now.content.statistics }
    {
        match &self.rows.stats {
            Some(statistics) => Some(statistics),
            None => None,
        }
    }

    /// The metadata, in the order of the postscript.
    pub fn metadata(&self) -> &[PostscriptMetadata]
        ensures { result.now ≡ self.now.content.metadata }
    {
        self.segments.entries.as_slice()
    }

    /// Where the value of a key lies.
    pub fn metadata_segment(&self, key: &str) -> Option<&SegmentSpec>
        ensures { option_map (λ s. s.now) result ≡ segment_of_key self.now.content.metadata key.now }
    {
        let at = place_of(self.segments.entries.as_slice(), key)?;
        self.segments.table[self.segments.data_count..].get(at)
    }

    /// The ids that the bytes of an array name by their place here.
    pub fn array_ids(&self) -> &[String]
        ensures { map string_bytes result.now ≡ self.now.content.array_ids }
    {
        &self.rows.ids
    }

    /// How many bytes the footer takes in a file, where that is known.
    pub fn approx_byte_size(&self) -> Option<usize>
        ensures { result ≡ self.now.approx_byte_size }
    {
        self.byte_size
    }

    /// Whether each segment ends within a file of this size.
    pub fn validate_file_size(&self, file_size: u64) -> Result<(), PastEnd>
        ensures { is_ok result ≡ list_all (ends_in file_size) (segment_table self.now.content) }
    {
        if all_end_within(self.segment_specs_with_metadata(), file_size) {
            return Ok(());
        }
        Err(PastEnd)
    }

    /// The same footer. No part is copied.
    pub fn share(&self, alloc: Global) -> Result<Footer, AllocError>
        ensures { IfOk result (λ footer. footer ≡ self.now) }
    {
        let _ = alloc;
        Ok(Footer {
            rows: Arc::try_clone(&self.rows)?,
            segments: Arc::try_clone(&self.segments)?,
            format: self.format,
            byte_size: self.byte_size,
        })
    }
}
