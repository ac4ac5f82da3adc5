//! How segments are read: the settings of a reader in place of its own, and a cache.
ghost use Rattle.std.specs.Prelude.{◌≡◌, ◌≤◌, IfSome};
ghost use Rattle.vx_base.specs.Readers.{settings_of};
ghost use Rattle.vx_commands.specs.Reading.{plain_reading, reading_of, is_from_one, least_reads, settings_by};

use std::marker::Model;
use vx_base::{Reader, WithWindow};

/// The most ranges that one call may be told to ask.
pub const MOST_READS: u64 = 1024;

/// The most segments that a cache may be told to keep.
pub const MOST_KEPT: u64 = 65_536;

/// What is said of how segments are read: the distance and the greatest read, which come together where the
/// second is said; the most ranges of one call; and how many segments a cache keeps, if there is one.
#[derive(Drop)]
pub struct Reading {
    distance: Option<u64>,
    max_read_size: Option<u64>,
    reads: Option<u64>,
    kept: Option<u64>,
}

impl Model for Reading {
    ghost use Rattle.vx_commands.specs.Reading.{ReadingValue, IsReading};

    ghost Value = { ReadingValue };

    ghost view = { λ r. record { distance = r.distance; max_read_size = r.max_read_size; reads = r.reads; kept = r.kept } };

    ghost invariant = { λ r. IsReading r.distance r.max_read_size r.reads r.kept };
}

/// Whether a number is from one to the most, where it is said.
fn is_from_one(most: u64, number: Option<u64>) -> bool
    ensures { result ≡ is_from_one most number }
{
    match number {
        Some(number) => number >= 1 && number <= most,
        None => true,
    }
}

impl Reading {
    /// Segments are read by the settings of the reader, and none is kept.
    pub(crate) fn plain() -> Reading
        ensures { result ≡ plain_reading }
    {
        Reading {
            distance: None,
            max_read_size: None,
            reads: None,
            kept: None,
        }
    }

    /// How segments are read by these numbers, if they are in their bounds and the greatest read comes with a
    /// distance.
    pub(crate) fn of(
        distance: Option<u64>,
        max_read_size: Option<u64>,
        reads: Option<u64>,
        kept: Option<u64>,
    ) -> Option<Reading>
        ensures { result ≡ reading_of distance max_read_size reads kept }
    {
        if distance.is_none() && max_read_size.is_some() {
            return None;
        }
        if !is_from_one(MOST_READS, reads) || !is_from_one(MOST_KEPT, kept) {
            return None;
        }
        Some(Reading {
            distance,
            max_read_size,
            reads,
            kept,
        })
    }

    /// How many segments a cache is to keep, if there is to be one.
    pub(crate) fn kept(&self) -> Option<usize>
        ensures value { result ≡ self.now.kept }
        ensures some { IfSome result (λ n. 1 ≤ n) }
    {
        Some(self.kept? as usize)
    }

    /// The lesser of the most ranges that were said and those of the reader.
    fn reads(&self, most: usize) -> usize
        requires { 1 ≤ most }
        ensures value { result ≡ least_reads self.now.reads most }
        ensures some { 1 ≤ result }
        ensures fewer { result ≤ most }
    {
        match self.reads {
            Some(reads) => (reads as usize).min(most),
            None => most,
        }
    }

    /// A reader with these settings in place of its own.
    pub(crate) fn window<R: Reader>(&self, reader: R) -> WithWindow<R>
        ensures inner { result.inner ≡ reader }
        ensures settings { settings_of (⟦<WithWindow<R> as Reader>⟧.state result) ≡ settings_by self.now (settings_of (R.state reader)) }
    {
        let concurrency = self.reads(reader.concurrency());
        let (distance, max_read_size) = match self.distance {
            Some(distance) => (Some(distance), self.max_read_size),
            None => (reader.coalesce_distance(), reader.max_read_size()),
        };
        WithWindow::new(reader, distance, max_read_size, concurrency)
    }
}
