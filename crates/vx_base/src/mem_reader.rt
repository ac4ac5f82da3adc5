//! A reader over memory, which can do mischief.
ghost use Rattle.std.specs.Prelude.{◌≡◌, ◌+◌, ◌≤◌, ◌++◌, min, length, All, IfOk, OnOk, OnErr, true};
ghost use Rattle.vx_base.specs.Asking.{IsInside, IsTrueTo, ranges_of, faulted, logged};
ghost use Rattle.vx_base.specs.Counts.{Rises, last_count};
ghost use Rattle.vx_base.specs.Memory.{MemReaderState, reader_state, new_reader, size_of, after_size, MemClones, MemReads};
ghost use Rattle.vx_base.specs.Mischiefs.{is_well_behaved, answers_of};
ghost use Rattle.vx_base.specs.Readers.{SizeCause, RangesCause, CloneCause, SameReader};

use crate::matching::count_faulted;
use crate::mem_answers::push_turn;
use crate::mischief::{fails_clone, fails_size};
use crate::{
    Asked, ByteBuffer, CloneError, Failed, Mischief, RangeAnswer, ReadAtRequest, Reader,
    log_answers,
};
use std::alloc::{AllocError, Global};
use std::marker::Model;

/// A reader over a buffer. It tells its bytes and its log, and fails only by its mischief and at
/// ranges outside its bytes.
#[derive(Drop)]
pub struct MemReader {
    bytes: ByteBuffer,
    distance: Option<u64>,
    max_read_size: Option<u64>,
    concurrency: usize,
    mischief: Vec<Mischief>,
    log: Vec<Asked>,
    ranges: Vec<ReadAtRequest>,
    faults: u64,
    sizes: u64,
    clones: u64,
}

impl Model for MemReader {
    ghost use Rattle.std.specs.Prelude.{◌≡◌, ◌≤◌};
    ghost use Rattle.vx_base.specs.Memory.{MemReaderState};
    ghost use Rattle.vx_base.specs.Asking.{ranges_of};

    ghost Value = { MemReaderState };

    ghost view = { λ r. record {
      bytes = r.bytes.bytes;
      distance = r.distance;
      max_read_size = r.max_read_size;
      concurrency = r.concurrency;
      mischief = r.mischief.items;
      log = r.log.items;
      faults = r.faults;
      sizes = r.sizes;
      clones = r.clones;
    } };

    ghost invariant = { λ r. (r.ranges.items ≡ ranges_of r.log.items) × (1 ≤ r.concurrency) };
}

impl MemReader {
    /// A reader of these bytes, which was asked nothing yet. Without mischief it never fails.
    pub fn new(
        alloc: Global,
        bytes: ByteBuffer,
        distance: Option<u64>,
        max_read_size: Option<u64>,
        concurrency: usize,
        mischief: Vec<Mischief>,
    ) -> Result<MemReader, AllocError>
        requires { 1 ≤ concurrency }
        ensures { IfOk result (λ r. r ≡ new_reader bytes.bytes distance max_read_size concurrency mischief.items) }
    {
        Ok(MemReader {
            bytes,
            distance,
            max_read_size,
            concurrency,
            mischief,
            log: Vec::new(alloc),
            ranges: Vec::new(alloc),
            faults: 0,
            sizes: 0,
            clones: 0,
        })
    }

    /// The ranges that were asked, in order.
    pub fn asked(&self) -> &[ReadAtRequest]
        ensures { result.now ≡ ranges_of self.now.log }
    {
        self.ranges.as_slice()
    }

    // The log, in place of the reader.
    pub(crate) fn into_log(self) -> Vec<Asked>
        ensures { result.items ≡ self.log }
    {
        self.log
    }

    // How many faults there were.
    pub(crate) fn faults(&self) -> u64
        ensures { result ≡ self.now.faults }
    {
        self.faults
    }

    // Adds the ranges of a call to the log, all or none.
    fn note(&mut self, gained: &[Asked], asked: &[ReadAtRequest]) -> Result<(), AllocError>
        requires { asked.now ≡ ranges_of gained.now }
        ensures noted { OnOk result (self.new ≡ record self.old { log = self.old.log ++ gained.now }) }
        ensures kept { OnErr result (self.new ≡ self.old) }
    {
        self.ranges.reserve(asked.len())?;
        self.log.extend_from_slice(gained)?;
        self.ranges.extend_from_slice(asked).unwrap();
        Ok(())
    }

    // Counts faults.
    fn count_faults(&mut self, count: u64)
        ensures value { self.new ≡ record self.old { faults = min (self.old.faults + count) last_count } }
        ensures rises { Rises count self.old.faults self.new.faults }
        ensures none { count ≡ 0 → self.new ≡ self.old }
    {
        self.faults = self.faults.saturating_add(count);
    }

    // The answers of a call, in the order that they come in.
    fn answers(
        &self,
        alloc: Global,
        asked: &[ReadAtRequest],
    ) -> Result<Vec<RangeAnswer>, AllocError>
        ensures value { IfOk result (λ answers.
            answers.items ≡ answers_of self.now.bytes self.now.mischief (length self.now.log) asked.now) }
        ensures slices { IfOk result (λ answers. All (IsTrueTo self.now.bytes) answers.items) }
        ensures unmarked { is_well_behaved self.now.mischief ≡ true → All (IsInside self.now.bytes) asked.now →
            IfOk result (λ answers. faulted (logged asked.now answers.items) ≡ 0) }
    {
        let place = self.log.len() as u64;
        let mischief = self.mischief.as_slice();
        let mut answers = Vec::new(alloc);
        push_turn(
            alloc,
            &self.bytes,
            mischief,
            place,
            asked,
            false,
            &mut answers,
        )?;
        push_turn(
            alloc,
            &self.bytes,
            mischief,
            place,
            asked,
            true,
            &mut answers,
        )?;
        Ok(answers)
    }
}

impl Reader for MemReader {
    ghost state = { reader_state };

    fn size(&mut self) -> Result<u64, Failed>
        ensures cause { SizeCause (reader_state self.old) (reader_state self.new) result }
        ensures same { SameReader (reader_state self.old) (reader_state self.new) }
        ensures value { result ≡ size_of self.old }
        ensures after { self.new ≡ after_size self.old }
    {
        let place = self.sizes;
        self.sizes = place.saturating_add(1);
        if fails_size(self.mischief.as_slice(), place) {
            self.count_faults(1);
            return Err(Failed);
        }
        Ok(self.bytes.len() as u64)
    }

    fn read_ranges(
        &mut self,
        alloc: Global,
        asked: &[ReadAtRequest],
    ) -> Result<Vec<RangeAnswer>, AllocError>
        ensures cause { RangesCause asked.now (reader_state self.old) (reader_state self.new) result }
        ensures same { SameReader (reader_state self.old) (reader_state self.new) }
        ensures exact { MemReads asked.now self.old self.new result }
    {
        let answers = self.answers(alloc, asked)?;
        let gained = log_answers(alloc, asked, answers.as_slice())?;
        self.note(gained.as_slice(), asked)?;
        self.count_faults(count_faulted(gained.as_slice()) as u64);
        Ok(answers)
    }

    fn coalesce_distance(&self) -> Option<u64> {
        self.distance
    }

    fn max_read_size(&self) -> Option<u64> {
        self.max_read_size
    }

    fn concurrency(&self) -> usize {
        self.concurrency
    }

    fn uri(&self) -> Option<&str> {
        None
    }

    fn try_clone(&mut self, alloc: Global) -> Result<MemReader, CloneError>
        ensures cause { CloneCause reader_state (reader_state self.old) (reader_state self.new) result }
        ensures same { SameReader (reader_state self.old) (reader_state self.new) }
        ensures exact { MemClones self.old self.new result }
    {
        let place = self.clones;
        self.clones = place.saturating_add(1);
        if fails_clone(self.mischief.as_slice(), place) {
            self.count_faults(1);
            return Err(CloneError::Failed);
        }
        let bytes = self.bytes.share(alloc)?;
        Ok(MemReader::new(
            alloc,
            bytes,
            self.distance,
            self.max_read_size,
            self.concurrency,
            Vec::new(alloc),
        )?)
    }
}
