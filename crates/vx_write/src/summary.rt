//! A file that was written.
ghost use Rattle.std.specs.Prelude.{◌≡◌, Err, IfOk};
ghost use Rattle.vx_footer.specs.declared.sizes_error.SizesError.{SizesError};
ghost use Rattle.vx_write.specs.ColumnSizes.{HasColumnSizes, RefusesSizes};

use crate::column_sizes::column_sizes;
use std::alloc::Global;
use vx_footer::{Footer, SizesError};

/// A file that was written: its footer, how many bytes it has, and how many rows.
#[derive(Drop)]
pub struct WriteSummary {
    footer: Footer,
    size: u64,
    row_count: u64,
}

impl WriteSummary {
    /// A file of this footer, with so many bytes and rows.
    pub(crate) fn new(footer: Footer, size: u64, row_count: u64) -> WriteSummary
        ensures footer { result.footer ≡ footer }
        ensures size { result.size ≡ size }
        ensures rows { result.row_count ≡ row_count }
    {
        WriteSummary {
            footer,
            size,
            row_count,
        }
    }

    /// The footer.
    pub fn footer(&self) -> &Footer
        ensures { result.now ≡ self.now.footer }
    {
        &self.footer
    }

    /// How many bytes the file has.
    pub fn size(&self) -> u64
        ensures { result ≡ self.now.size }
    {
        self.size
    }

    /// How many rows the file has.
    pub fn row_count(&self) -> u64
        ensures { result ≡ self.now.row_count }
    {
        self.row_count
    }

    /// How many bytes each column takes: the fields in their order, where the rows are structs, nothing for a field that
    /// has no layout; or else the whole. A segment that the layout names and the file has not is refused.
    pub fn compressed_column_sizes(&self, alloc: Global) -> Result<Vec<u64>, SizesError>
        ensures value { let f = self.now.footer.content in IfOk result (λ sizes. HasColumnSizes f.layout f.segments sizes.items) }
        ensures refused { let f = self.now.footer.content in (e : SizesError) → result ≡ Err e → RefusesSizes f.layout f.segments e }
    {
        column_sizes(alloc, &self.footer)
    }
}
