//! The steps of a script, kept in few bytes.
ghost use Rattle.std.specs.Prelude.{◌≡◌, ◌+◌, ◌*◌, ◌∷◌, [], ◌++◌, length, IfOk, OnOk, OnErr};
ghost use Rattle.vx_file.specs.CompactScript.{number_count, step_by};

use crate::Step;
use std::alloc::{AllocError, Global};
use std::marker::Model;

/// What a step does, and how its number is kept.
#[derive(Clone, Copy, Debug, PartialEq, Eq)]
pub(crate) enum StepKind {
    Register,
    Poll,
    /// Polls a number of more than 32 bits, of which the high ones come first.
    LongPoll,
    Drop,
    /// Drops a number of more than 32 bits.
    LongDrop,
    Drive,
}

impl StepKind {
    /// Of how many numbers a step of this kind is made.
    #[inline(always)]
    fn number_count(self) -> usize
        ensures { result ≡ number_count self }
    {
        match self {
            StepKind::Register | StepKind::Poll | StepKind::Drop => 1,
            StepKind::LongPoll | StepKind::LongDrop => 2,
            StepKind::Drive => 0,
        }
    }

    /// The step of this kind and these numbers, of which there are as many as it is made of.
    #[inline(always)]
    fn step(self, numbers: &[u32]) -> Step
        ensures { result ≡ step_by self numbers.now }
    {
        match (self, numbers) {
            (StepKind::Register, [segment]) => Step::Register(*segment),
            (StepKind::Poll, [number]) => Step::Poll(u64::from(*number)),
            (StepKind::LongPoll, [high, low]) => Step::Poll(joined(*high, *low)),
            (StepKind::Drop, [number]) => Step::Drop(u64::from(*number)),
            (StepKind::LongDrop, [high, low]) => Step::Drop(joined(*high, *low)),
            _ => Step::Drive,
        }
    }
}

/// The high and the low 32 bits of a number.
fn halves(number: u64) -> (u32, u32)
    ensures { result.0 * 4294967296 + result.1 ≡ number }
{
    let high = number / 4_294_967_296;
    let low = number % 4_294_967_296;
    (high as u32, low as u32)
}

/// The number of these halves.
#[inline(always)]
fn joined(high: u32, low: u32) -> u64
    ensures { result ≡ high * 4294967296 + low }
{
    u64::from(high) * 4_294_967_296 + u64::from(low)
}

/// The steps of a script, which contracts see as a list of them. A step takes one byte, and four more for a number of up
/// to 32 bits.
#[derive(Drop)]
pub struct Script {
    kinds: Vec<StepKind>,
    numbers: Vec<u32>,
}

impl Model for Script {
    ghost use Rattle.std.specs.Prelude.{◌≡◌, List, length};
    ghost use Rattle.vx_file.specs.CompactScript.{numbers_of_kinds, steps_by};
    ghost use Rattle.vx_file.specs.declared.step.Step.{Step};

    ghost Value = { List Step };

    ghost view = { λ s. steps_by s.kinds.items s.numbers.items };

    ghost invariant = { λ s. numbers_of_kinds s.kinds.items ≡ length s.numbers.items };
}

impl Script {
    /// No step.
    pub fn new(alloc: Global) -> Script
        ensures { result ≡ [] }
    {
        Script {
            kinds: Vec::new(alloc),
            numbers: Vec::new(alloc),
        }
    }

    /// No step, with room for so many.
    pub fn with_capacity(alloc: Global, count: usize) -> Result<Script, AllocError>
        ensures { IfOk result (λ script. script ≡ []) }
    {
        Ok(Script {
            kinds: Vec::with_capacity(alloc, count)?,
            numbers: Vec::with_capacity(alloc, count)?,
        })
    }

    /// Adds a step of a kind and its numbers. Without memory nothing changes.
    #[inline(always)]
    fn push_kind(&mut self, kind: StepKind, numbers: &[u32]) -> Result<(), AllocError>
        requires { number_count kind ≡ length numbers.now }
        ensures ok { OnOk result (self.new ≡ self.old ++ step_by kind numbers.now ∷ []) }
        ensures err { OnErr result (self.new ≡ self.old) }
    {
        self.kinds.push(kind)?;
        match self.numbers.extend_from_slice(numbers) {
            Ok(()) => Ok(()),
            Err(error) => {
                self.kinds.pop();
                Err(error)
            }
        }
    }

    /// Adds a step at the end. Without memory nothing changes.
    pub fn push(&mut self, step: Step) -> Result<(), AllocError>
        ensures ok { OnOk result (self.new ≡ self.old ++ step ∷ []) }
        ensures err { OnErr result (self.new ≡ self.old) }
    {
        match step {
            Step::Register(segment) => self.push_kind(StepKind::Register, &[segment]),
            Step::Poll(number) => match u32::try_from(number) {
                Ok(short) => self.push_kind(StepKind::Poll, &[short]),
                Err(_) => {
                    let (high, low) = halves(number);
                    self.push_kind(StepKind::LongPoll, &[high, low])
                }
            },
            Step::Drop(number) => match u32::try_from(number) {
                Ok(short) => self.push_kind(StepKind::Drop, &[short]),
                Err(_) => {
                    let (high, low) = halves(number);
                    self.push_kind(StepKind::LongDrop, &[high, low])
                }
            },
            Step::Drive => self.push_kind(StepKind::Drive, &[]),
        }
    }

    /// How many steps there are.
    pub fn len(&self) -> usize
        ensures { result ≡ length self.now }
    {
        self.kinds.len()
    }

    /// The steps, one after another.
    pub fn iter(&self) -> ScriptSteps<'_>
        ensures { result ≡ self.now }
    {
        ScriptSteps {
            kinds: self.kinds.as_slice(),
            numbers: self.numbers.as_slice(),
            step: 0,
            number: 0,
        }
    }
}

/// The steps of a script that are left to be taken: those from a place on, whose numbers are those from another.
#[derive(Drop)]
pub struct ScriptSteps<'a> {
    kinds: &'a [StepKind],
    numbers: &'a [u32],
    step: usize,
    number: usize,
}

impl<'a> Model for ScriptSteps<'a> {
    ghost use Rattle.std.specs.Prelude.{◌≡◌, ◌≤◌, List, length, drop};
    ghost use Rattle.vx_file.specs.CompactScript.{numbers_of_kinds, steps_by};
    ghost use Rattle.vx_file.specs.declared.step.Step.{Step};

    ghost Value = { List Step };

    ghost view = { λ s. steps_by (drop s.step s.kinds.now) (drop s.number s.numbers.now) };

    ghost invariant = { λ s. (s.step ≤ length s.kinds.now) × (s.number ≤ length s.numbers.now)
        × (numbers_of_kinds (drop s.step s.kinds.now) ≡ length (drop s.number s.numbers.now)) };
}

impl<'a> Iterator for ScriptSteps<'a> {
    type Item = Step;

    ghost use Rattle.std.specs.Iterator.{YieldsFirst, item_count};

    ghost next_gives = { YieldsFirst (λ s. s) };

    ghost remaining = { item_count (λ s. s) };

    #[inline(always)]
    fn next(&mut self) -> Option<Step> {
        let kind = *self.kinds.get(self.step)?;
        let end = self.number + kind.number_count();
        let step = kind.step(&self.numbers[self.number..end]);
        self.step += 1;
        self.number = end;
        Some(step)
    }
}

/// The steps of a script that are left to be taken, from a slice or from one that keeps them in few bytes.
#[derive(Drop)]
pub(crate) enum Steps<'a> {
    Plain(&'a [Step]),
    Compact(ScriptSteps<'a>),
}

impl<'a> Iterator for Steps<'a> {
    type Item = Step;

    ghost use Rattle.std.specs.Iterator.{YieldsFirst, item_count};
    ghost use Rattle.vx_file.specs.StepsLeft.{steps_left};

    ghost next_gives = { YieldsFirst steps_left };

    ghost remaining = { item_count steps_left };

    #[inline(always)]
    fn next(&mut self) -> Option<Step> {
        match self {
            Steps::Plain(steps) => {
                let (first, others) = steps.split_first()?;
                *steps = others;
                Some(*first)
            }
            Steps::Compact(steps) => steps.next(),
        }
    }
}
