//! Paths and their sizes, in order.
use std::collections::btree_map;
use vx_data::FieldPath;

/// The paths of a file and how many bytes they take, in the order of paths.
#[derive(Drop)]
pub struct FieldSizes<'a> {
    pub(crate) rest: btree_map::Iter<'a, FieldPath, u64>,
}

impl<'a> Iterator for FieldSizes<'a> {
    type Item = (&'a FieldPath, u64);

    ghost use Rattle.std.specs.Iterator.{YieldsFirstBy, item_count};

    ghost next_gives = { YieldsFirstBy (λ x. (x.0.now, x.1)) (λ s. s.rest) };

    ghost remaining = { item_count (λ s. s.rest) };

    fn next(&mut self) -> Option<(&'a FieldPath, u64)> {
        let (path, size) = self.rest.next()?;
        Some((path, *size))
    }
}
