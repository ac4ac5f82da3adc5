//! How many bytes each field of a file takes.
ghost use Rattle.std.specs.Prelude.{◌≡◌, ℕ, List, ◌+◌, ◌-◌, ◌*◌, ◌<◌, ◌≤◌, ◌^◌, [], OnOk, IfOk, IfSome, length, drop, slice_index_or, if◌then◌else◌, unwrap_or, replicate, Some, None};
ghost use Rattle.std.specs.List.{list_any};
ghost use Rattle.std.specs.Option.{option_map, option_or};
ghost use Rattle.std.specs.BTreeMap.{is_at};
ghost use Rattle.vx_base.specs.declared.segment.SegmentSpec.{SegmentSpec as Spec};
ghost use Rattle.vx_data.specs.Paths.{Path, path_cmp};
ghost use Rattle.vx_data.specs.Layout.{LayoutTree};
ghost use Rattle.vx_footer.specs.FieldSizes.{AreSizes, SizesGiven, is_prefix, size_at, paths_of, references_of, named_segments};
ghost use Rattle.vx_footer.specs.CommonPaths.{is_within, length_within, commons_after};
ghost use Rattle.vx_footer.specs.Gathering.{has_path};

use crate::Footer;
use crate::field_sizes::FieldSizes;
use crate::gathered::Gathered;
use crate::path_table::{PathTable, copy_of};
use crate::sizes_error::SizesError;
use crate::visits::gathered_of;
use std::alloc::{AllocError, Global};
use std::collections::BTreeMap;
use std::marker::Model;
use vx_base::{SegmentId, SegmentSpec};
use vx_data::FieldPath;

/// How many segments the numbers can name.
const MOST_NAMED: usize = 0x1_0000_0000;

/// How many bytes each field of a file takes. A segment counts for the longest path that leads to all
/// layouts that name it, and for each path before.
#[derive(Drop)]
pub struct CompressedFieldSizes {
    sizes: BTreeMap<FieldPath, u64>,
    whole: u64,
}

impl Model for CompressedFieldSizes {
    ghost use Rattle.vx_footer.specs.FieldSizes.{SizeList};

    ghost Value = { SizeList };

    ghost view = { λ s. record { entries = s.sizes.entries; total = s.whole } };
}

/// Adds a path, if it is not there, with 0 bytes.
fn add_path(
    alloc: Global,
    sizes: &mut BTreeMap<FieldPath, u64>,
    path: &FieldPath,
) -> Result<(), AllocError>
    ensures { OnOk result ((q : Path) → size_at sizes.new.entries q
        ≡ option_or (size_at sizes.old.entries q) (if is_at (path_cmp path.now) q then Some 0 else None)) }
{
    if sizes.contains_key(path) {
        return Ok(());
    }
    sizes.insert(copy_of(alloc, path)?, 0)?;
    Ok(())
}

/// Each of these paths, with 0 bytes.
fn no_sizes(alloc: Global, table: &PathTable) -> Result<BTreeMap<FieldPath, u64>, AllocError>
    ensures { IfOk result (λ sizes. (q : Path) → size_at sizes.entries q ≡ (if has_path table.now q then Some 0 else None)) }
{
    let mut sizes = BTreeMap::new(alloc);
    for number in 0..table.len() {
        add_path(alloc, &mut sizes, table.path(number))?;
    }
    Ok(sizes)
}

/// Adds bytes at a path, if it is there.
fn add_at(sizes: &mut BTreeMap<FieldPath, u64>, path: &FieldPath, bytes: u64)
    requires { IfSome (size_at sizes.old.entries path.now) (λ size. size + bytes < 2 ^ 64) }
    ensures { (q : Path) → size_at sizes.new.entries q
        ≡ option_map (λ size. size + (if is_at (path_cmp path.now) q then bytes else 0)) (size_at sizes.old.entries q) }
{
    if let Some(size) = sizes.get_mut(path) {
        *size += bytes;
    }
}

/// Adds bytes at a path and at each one before it. No size is above `most`.
fn add_along(sizes: &mut BTreeMap<FieldPath, u64>, path: FieldPath, bytes: u64, most: u64)
    requires room { most + bytes < 2 ^ 64 }
    requires low { (q : Path) → IfSome (size_at sizes.old.entries q) (λ size. size ≤ most) }
    ensures { (q : Path) → size_at sizes.new.entries q
        ≡ option_map (λ size. size + (if is_prefix q path then bytes else 0)) (size_at sizes.old.entries q) }
{
    let _most = most;
    let mut prefix = path;
    loop {
        add_at(sizes, &prefix, bytes);
        if !prefix.pop() {
            return;
        }
    }
}

/// Adds bytes along a common path, if there is one. No size is above `most`.
fn add_length(
    alloc: Global,
    sizes: &mut BTreeMap<FieldPath, u64>,
    common: Option<&FieldPath>,
    bytes: u64,
    most: u64,
) -> Result<(), AllocError>
    requires room { most + bytes < 2 ^ 64 }
    requires low { (q : Path) → IfSome (size_at sizes.old.entries q) (λ size. size ≤ most) }
    ensures { OnOk result ((q : Path) → size_at sizes.new.entries q
        ≡ option_map (λ size. size + (if is_within q (option_map (λ path. path.now) common.entry) then bytes else 0)) (size_at sizes.old.entries q)) }
{
    match common {
        Some(common) => {
            add_along(sizes, copy_of(alloc, common)?, bytes, most);
            Ok(())
        }
        None => Ok(()),
    }
}

/// Segments one behind the other with the same common path: the place behind them, and how many bytes they have.
#[derive(Clone, Copy)]
struct Run {
    end: usize,
    bytes: u64,
}

/// The segments from one on that have its common path.
fn run_from(gathered: &Gathered, segments: &[SegmentSpec], from: usize) -> Run
    requires count { length gathered.now.commons ≡ length segments.now }
    requires room { length segments.now ≤ 2 ^ 32 }
    requires inside { from < length segments.now }
    ensures further { from < result.end }
    ensures within { result.end ≤ length segments.now }
    ensures few { result.bytes ≤ (result.end - from) * 4294967295 }
    ensures sum { (q : Path) → length_within q (drop from gathered.now.commons) (drop from segments.now)
        ≡ (if is_within q (slice_index_or gathered.now.commons from None) then result.bytes else 0)
        + length_within q (drop result.end gathered.now.commons) (drop result.end segments.now) }
{
    let mut end = from + 1;
    let mut bytes = u64::from(segments[from].length);
    while end < segments.len() && gathered.are_same(from, end) {
        bytes += u64::from(segments[end].length);
        end += 1;
    }
    Run { end, bytes }
}

/// Adds the length of each segment along its common path.
fn add_lengths(
    alloc: Global,
    sizes: &mut BTreeMap<FieldPath, u64>,
    gathered: &Gathered,
    segments: &[SegmentSpec],
) -> Result<(), AllocError>
    requires count { length gathered.now.commons ≡ length segments.now }
    requires room { length segments.now ≤ 2 ^ 32 }
    requires low { (q : Path) → IfSome (size_at sizes.old.entries q) (λ size. size ≡ 0) }
    ensures { OnOk result ((q : Path) → size_at sizes.new.entries q
        ≡ option_map (λ size. size + length_within q gathered.now.commons segments.now) (size_at sizes.old.entries q)) }
{
    let mut id = 0;
    while id < segments.len() {
        let most = id as u64 * u64::from(u32::MAX);
        let run = run_from(gathered, segments, id);
        add_length(alloc, sizes, gathered.common(id), run.bytes, most)?;
        id = run.end;
    }
    Ok(())
}

/// The size that stands at the path of no names.
fn total_of(alloc: Global, sizes: &BTreeMap<FieldPath, u64>) -> u64
    ensures { result ≡ unwrap_or (size_at sizes.now.entries []) 0 }
{
    let root = FieldPath::new(Vec::new(alloc));
    sizes.get(&root).copied().unwrap_or(0)
}

/// The sizes of what a walk gathered, of the segments that have a number.
fn sizes_of(
    alloc: Global,
    gathered: &Gathered,
    named: &[SegmentSpec],
) -> Result<CompressedFieldSizes, AllocError>
    requires count { length gathered.now.commons ≡ length named.now }
    requires room { length named.now ≤ 2 ^ 32 }
    ensures { IfOk result (λ sizes. (t : LayoutTree) (ss : List Spec) → ((q : Path) → has_path gathered.now.paths q ≡ has_path (paths_of [] t) q)
        → named.now ≡ named_segments ss → gathered.now.commons ≡ commons_after (replicate (length named.now) None) (references_of [] t)
        → AreSizes t ss sizes) }
{
    let mut sizes = no_sizes(alloc, gathered.table())?;
    add_lengths(alloc, &mut sizes, gathered, named)?;
    let whole = total_of(alloc, &sizes);
    let count = sizes.len();
    prove!(count < usize::MAX);
    Ok(CompressedFieldSizes { sizes, whole })
}

impl CompressedFieldSizes {
    /// The bytes of a field, where the file has one of this path. The path of no names is the whole.
    pub fn get(&self, path: &FieldPath) -> Option<u64>
        ensures { result ≡ size_at self.now.entries path.now }
    {
        self.sizes.get(path).copied()
    }

    /// The bytes of all segments that layouts name.
    pub fn total(&self) -> u64
        ensures { result ≡ self.now.total }
    {
        self.whole
    }

    /// The paths and their bytes, in the order of paths.
    pub fn iter(&self) -> FieldSizes<'_>
        ensures { result.rest ≡ self.now.entries }
    {
        FieldSizes {
            rest: self.sizes.iter(),
        }
    }
}

impl Footer {
    /// How many bytes each field takes. The first segment that the layout names and the file has not is
    /// refused.
    pub fn compressed_field_sizes(&self, alloc: Global) -> Result<CompressedFieldSizes, SizesError>
        ensures { SizesGiven self.now.content.layout self.now.content.segments result }
    {
        let segments = self.segment_map();
        let named = &segments[..segments.len().min(MOST_NAMED)];
        let gathered = gathered_of(alloc, self.layout(), segments.len(), named.len())?;
        if let Some(id) = gathered.missing() {
            return Err(SizesError::MissingSegment(id));
        }
        Ok(sizes_of(alloc, &gathered, named)?)
    }
}
