//! What a walk over a layout's tree gathers.
ghost use Rattle.std.specs.Prelude.{◌≡◌, ◌++◌, ◌∷◌, ◌<◌, [], Some, None, true, OnOk, IfOk, length, map, slice_index_or, slice_set, replicate};
ghost use Rattle.std.specs.List.{list_all};
ghost use Rattle.std.specs.Option.{option_map, option_or};
ghost use Rattle.vx_data.specs.Layout.{numbers_of};
ghost use Rattle.vx_footer.specs.FieldSizes.{references_at};
ghost use Rattle.vx_footer.specs.CommonPaths.{narrowed, commons_after};
ghost use Rattle.vx_footer.specs.Gathering.{path_at, is_known, commons_in, first_missing as first_of, Meets, IsMetAt};

use crate::path_table::PathTable;
use std::alloc::{AllocError, Global};
use std::marker::Model;
use vx_base::SegmentId;
use vx_data::FieldPath;

/// The paths of layouts, the number of the longest path that leads to all layouts that name a segment, and the first
/// number that no segment has.
#[derive(Drop)]
pub(crate) struct Gathered {
    table: PathTable,
    numbers: Vec<Option<u32>>,
    segments: usize,
    absent: Option<SegmentId>,
}

impl Model for Gathered {
    ghost use Rattle.std.specs.Prelude.{◌≡◌, true, length};
    ghost use Rattle.std.specs.List.{list_all};
    ghost use Rattle.std.specs.Option.{option_map};
    ghost use Rattle.vx_footer.specs.Gathering.{Gathering, is_known, commons_in};

    ghost Value = { Gathering };

    ghost view = { λ g. record {
      paths = g.table;
      commons = commons_in g.table g.numbers.items;
      count = g.segments;
      missing = option_map (λ id. id.0) g.absent;
    } };

    ghost invariant = { λ g. list_all (is_known (length g.table)) g.numbers.items ≡ true };
}

/// No path for each of so many segments.
#[tactic(auto, using(crate::proofs::GatherSteps::replicate_push))]
fn no_numbers(alloc: Global, count: usize) -> Result<Vec<Option<u32>>, AllocError>
    ensures { IfOk result (λ numbers. numbers.items ≡ replicate count None) }
{
    let mut numbers = Vec::with_capacity(alloc, count)?;
    for _segment in 0..count {
        numbers.push(None)?;
    }
    Ok(numbers)
}

/// The first number that no segment has, of one that was met before and of more numbers.
#[tactic(auto, using(crate::proofs::GatherSteps::find_steps))]
fn first_missing(absent: Option<SegmentId>, count: usize, ids: &[SegmentId]) -> Option<SegmentId>
    ensures { option_map (λ id. id.0) result ≡ option_or (option_map (λ id. id.0) absent) (first_of count (numbers_of ids.now)) }
{
    if absent.is_some() {
        return absent;
    }
    for id in ids {
        if id.0 as usize >= count {
            return Some(*id);
        }
    }
    None
}

/// The number of the common path of those so far and one more.
fn narrow(table: &PathTable, common: Option<u32>, number: u32) -> u32
    requires known { is_known (length table.now) common ≡ true }
    requires inside { number < length table.now }
    ensures inside { result < length table.now }
    ensures path { path_at table.now result ≡ narrowed (option_map (path_at table.now) common) (path_at table.now number) }
{
    match common {
        Some(common) => table.common(common, number),
        None => number,
    }
}

/// A layout of this path names this segment.
#[tactic(auto, using(crate::proofs::GatherSteps::set_steps))]
fn narrow_at(table: &PathTable, numbers: &mut Vec<Option<u32>>, number: u32, id: SegmentId)
    requires known { list_all (is_known (length table.now)) numbers.old.items ≡ true }
    requires inside { number < length table.now }
    ensures known { list_all (is_known (length table.now)) numbers.new.items ≡ true }
    ensures commons { let commons = commons_in table.now numbers.old.items in commons_in table.now numbers.new.items
        ≡ slice_set commons id.0 (Some (narrowed (slice_index_or commons id.0 None) (path_at table.now number))) }
{
    let at = id.0 as usize;
    if at >= numbers.len() {
        return;
    }
    let common = narrow(table, numbers[at], number);
    numbers[at] = Some(common);
}

/// A layout of this path names these segments.
#[tactic(auto, using(crate::proofs::GatherSteps::narrow_steps))]
fn narrow_each(table: &PathTable, numbers: &mut Vec<Option<u32>>, number: u32, ids: &[SegmentId])
    requires known { list_all (is_known (length table.now)) numbers.old.items ≡ true }
    requires inside { number < length table.now }
    ensures known { list_all (is_known (length table.now)) numbers.new.items ≡ true }
    ensures commons { commons_in table.now numbers.new.items
        ≡ commons_after (commons_in table.now numbers.old.items) (references_at (path_at table.now number) (numbers_of ids.now)) }
{
    for id in ids {
        narrow_at(table, numbers, number, *id);
    }
}

impl Gathered {
    /// Nothing but the path of no names, of so many segments and so many that have a number.
    pub fn new(alloc: Global, segments: usize, named: usize) -> Result<Gathered, AllocError>
        ensures { IfOk result (λ g. g ≡ record { paths = [] ∷ []; commons = replicate named None; count = segments; missing = None }) }
    {
        Ok(Gathered {
            table: PathTable::new(alloc)?,
            numbers: no_numbers(alloc, named)?,
            segments,
            absent: None,
        })
    }

    /// The paths.
    pub fn table(&self) -> &PathTable
        ensures { result.now ≡ self.now.paths }
    {
        &self.table
    }

    /// The first number that no segment has.
    pub fn missing(&self) -> Option<SegmentId>
        ensures { option_map (λ id. id.0) result ≡ self.now.missing }
    {
        self.absent
    }

    /// The common path of a segment.
    pub fn common(&self, segment: usize) -> Option<&FieldPath>
        requires { segment < length self.now.commons }
        ensures { option_map (λ path. path.now) result ≡ slice_index_or self.now.commons segment None }
    {
        let number = self.numbers[segment]?;
        Some(self.table.path(number as usize))
    }

    /// Whether two segments have the same common path, as far as their numbers tell.
    pub fn are_same(&self, left: usize, right: usize) -> bool
        requires left { left < length self.now.commons }
        requires right { right < length self.now.commons }
        ensures { result ≡ true → slice_index_or self.now.commons left None ≡ slice_index_or self.now.commons right None }
    {
        self.numbers[left] == self.numbers[right]
    }

    /// The number of the path of a field of this name.
    pub fn child(&mut self, alloc: Global, parent: u32, name: &str) -> Result<u32, AllocError>
        requires { parent < length self.old.paths }
        ensures { IfOk result (λ number. IsMetAt self.old self.new (path_at self.old.paths parent ++ name.now ∷ []) number) }
    {
        let number = self.table.child(alloc, parent, name)?;
        Ok(number)
    }

    /// A layout of this path names these segments.
    pub fn meet(&mut self, number: u32, ids: &[SegmentId])
        requires { number < length self.old.paths }
        ensures { let path = path_at self.old.paths number in Meets self.old self.new (path ∷ []) (references_at path (numbers_of ids.now)) }
    {
        self.table.meet(number);
        narrow_each(&self.table, &mut self.numbers, number, ids);
        self.absent = first_missing(self.absent, self.segments, ids);
    }
}
