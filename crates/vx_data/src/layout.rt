//! How the rows of a column are laid out in segments.
ghost use Rattle.std.specs.Prelude.{◌≡◌, ◌<◌, ◌^◌, [], ◌∷◌, IfOk, length, map, replicate};
ghost use Rattle.std.specs.Arc.{arc_value};
ghost use Rattle.vx_data.specs.Dtype.{dtype_view};
ghost use Rattle.vx_data.specs.Layout.{node, no_layouts, layouts_of, numbers_of, kind_of, dtype_of, rows_of, segments_of, children_of, rows_sum, Fits};
ghost use Rattle.vx_data.specs.LayoutParts.{kind_in, segments_in, below_in};

use crate::{DType, LayoutKind};
use std::alloc::{AllocError, Global};
use std::array;
use std::marker::Model;
use std::sync::Arc;
use vx_base::SegmentId;

/// How the rows of a column are laid out: a tree that fits the column's type at every node.
#[cycle(layout)]
#[derive(Debug, Drop)]
pub struct Layout {
    dtype: Arc<DType, Global>,
    row_count: u64,
    parts: Parts,
}

/// What a layout is made of: its kind, and a segment or the layouts below.
#[cycle(layout)]
#[derive(Debug, Drop)]
pub(crate) enum Parts {
    Flat(SegmentId),
    Chunked(Arc<Vec<Layout>, Global>),
    Struct(Arc<Vec<Layout>, Global>),
}

impl Model for Layout {
    ghost use Rattle.vx_data.specs.Layout.{LayoutTree, node, layouts_of, Fits, tree_size};
    ghost use Rattle.vx_data.specs.Codes.{tree_code};

    ghost Value = { LayoutTree };

    ghost coded = { tree_code };

    ghost use Rattle.std.specs.Arc.{arc_value};
    ghost use Rattle.vx_data.specs.Dtype.{dtype_view};
    ghost use Rattle.vx_data.specs.LayoutParts.{kind_in, segments_in, below_in};

    ghost view = { λ a. node (kind_in a.parts) (dtype_view (arc_value a.dtype)) a.row_count (segments_in a.parts) (layouts_of (below_in a.parts)) };

    ghost invariant = { λ a. Fits (kind_in a.parts) (dtype_view (arc_value a.dtype)) a.row_count (segments_in a.parts) (below_in a.parts) };

    ghost size = { tree_size };

    ghost use Rattle.vx_data.specs.Sizes.{depth_le-sizes};

    ghost size_decreases = { λ a h. depth_le-sizes a.parts };
}

/// The sum of the children's rows.
fn sum_of(children: &[Layout]) -> u64
    requires { rows_sum children.now < 2 ^ 64 }
    ensures { result ≡ rows_sum children.now }
{
    let mut rows = 0;
    for child in children {
        rows += child.row_count();
    }
    rows
}

impl Parts {
    /// The same parts. Layouts are not copied.
    fn share(&self) -> Result<Parts, AllocError>
        ensures kind { IfOk result (λ shared. kind_in shared ≡ kind_in self.now) }
        ensures segments { IfOk result (λ shared. segments_in shared ≡ segments_in self.now) }
        ensures below { IfOk result (λ shared. below_in shared ≡ below_in self.now) }
    {
        match self {
            Parts::Flat(segment) => Ok(Parts::Flat(*segment)),
            Parts::Chunked(layouts) => Ok(Parts::Chunked(Arc::try_clone(layouts)?)),
            Parts::Struct(layouts) => Ok(Parts::Struct(Arc::try_clone(layouts)?)),
        }
    }
}

impl Layout {
    /// A layout of these parts.
    pub(crate) fn made(dtype: Arc<DType, Global>, row_count: u64, parts: Parts) -> Layout
        requires { Fits (kind_in parts) (dtype_view (arc_value dtype)) row_count (segments_in parts) (below_in parts) }
        ensures { result ≡ node (kind_in parts) (dtype_view (arc_value dtype)) row_count (segments_in parts) (layouts_of (below_in parts)) }
    {
        Layout {
            dtype,
            row_count,
            parts,
        }
    }

    /// The layout of rows of any type in one segment.
    pub fn flat(
        alloc: Global,
        dtype: DType,
        row_count: u64,
        segment: SegmentId,
    ) -> Result<Layout, AllocError>
        ensures { IfOk result (λ layout. layout ≡ node LayoutKind.Flat (dtype_view dtype) row_count (segment.0 ∷ []) no_layouts) }
    {
        let dtype = Arc::new(alloc, dtype)?;
        Ok(Layout::made(dtype, row_count, Parts::Flat(segment)))
    }

    /// The layout of the rows of its children, one behind the other. Each has this type.
    pub fn chunked(alloc: Global, dtype: DType, children: Vec<Layout>) -> Result<Layout, AllocError>
        requires dtypes { replicate (length children.items) (dtype_view dtype) ≡ map dtype_of children.items }
        requires rows { rows_sum children.items < 2 ^ 64 }
        ensures { IfOk result (λ layout. layout ≡ node LayoutKind.Chunked (dtype_view dtype) (rows_sum children.items) [] (layouts_of children.items)) }
    {
        let rows = sum_of(&children);
        let dtype = Arc::new(alloc, dtype)?;
        let children = Arc::new(alloc, children)?;
        Ok(Layout::made(dtype, rows, Parts::Chunked(children)))
    }

    /// The layout of the rows of a struct, by its fields.
    pub fn structure(
        alloc: Global,
        dtype: DType,
        row_count: u64,
        children: Vec<Layout>,
    ) -> Result<Layout, AllocError>
        requires { Fits LayoutKind.Struct (dtype_view dtype) row_count [] children.items }
        ensures { IfOk result (λ layout. layout ≡ node LayoutKind.Struct (dtype_view dtype) row_count [] (layouts_of children.items)) }
    {
        let dtype = Arc::new(alloc, dtype)?;
        let children = Arc::new(alloc, children)?;
        Ok(Layout::made(dtype, row_count, Parts::Struct(children)))
    }

    /// How the rows are kept.
    pub fn kind(&self) -> LayoutKind
        ensures { result ≡ kind_of self.now }
    {
        match &self.parts {
            Parts::Flat(_) => LayoutKind::Flat,
            Parts::Chunked(_) => LayoutKind::Chunked,
            Parts::Struct(_) => LayoutKind::Struct,
        }
    }

    /// The type of the rows.
    pub fn dtype(&self) -> &DType
        ensures { dtype_view result.now ≡ dtype_of self.now }
    {
        &self.dtype
    }

    /// How many rows there are.
    pub fn row_count(&self) -> u64
        ensures { result ≡ rows_of self.now }
    {
        self.row_count
    }

    /// The segments that the layout names itself.
    pub fn segment_ids(&self) -> &[SegmentId]
        ensures { numbers_of result.now ≡ segments_of self.now }
    {
        match &self.parts {
            Parts::Flat(segment) => array::from_ref(segment),
            Parts::Chunked(_) | Parts::Struct(_) => &[],
        }
    }

    /// The layouts below.
    pub fn children(&self) -> &[Layout]
        ensures { layouts_of result.now ≡ children_of self.now }
    {
        self.fitted_children()
    }

    /// The layouts below, over which the layout fits its type.
    pub fn fitted_children(&self) -> &[Layout]
        ensures below { layouts_of result.now ≡ children_of self.now }
        ensures fits { Fits (kind_of self.now) (dtype_of self.now) (rows_of self.now) (segments_of self.now) result.now }
    {
        match &self.parts {
            Parts::Flat(_) => &[],
            Parts::Chunked(layouts) => layouts,
            Parts::Struct(layouts) => layouts,
        }
    }

    /// The layouts below, whose rows are those of the layout where it is chunked.
    pub(crate) fn chunks(&self) -> &[Layout]
        ensures below { layouts_of result.now ≡ children_of self.now }
        ensures rows { kind_of self.now ≡ LayoutKind.Chunked → rows_sum result.now < 2 ^ 64 }
    {
        let rows = self.row_count();
        prove!(rows <= u64::MAX);
        self.fitted_children()
    }

    /// The same layout. Neither its type nor its children are copied.
    pub fn share(&self, alloc: Global) -> Result<Layout, AllocError>
        ensures { IfOk result (λ layout. layout ≡ self.now) }
    {
        Ok(Layout {
            dtype: Arc::try_clone(&self.dtype)?,
            row_count: self.row_count,
            parts: self.parts.share()?,
        })
    }
}
