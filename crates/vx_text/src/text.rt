//! Writes a text piece by piece through a buffer of fixed size, without memory of its own.
ghost use Rattle.std.specs.Prelude.{◌≡◌, ◌+◌, ◌++◌, ◌∷◌, [], ◌<◌, ◌≤◌, length, decimal};
ghost use Rattle.std.specs.Fmt.{signed_decimal};
ghost use Rattle.vx_text.specs.Text.{Adds, Finishes, Holds, new_text};

use crate::room::Room;
use std::alloc::Global;
use std::marker::Model;
use std::simd::prelude::*;
use vx_base::{Sink, SinkError, write_all, write_flushed};

/// For how many bytes there is room behind `make_room`: for a comma, a sign and the digits of 64 bits.
const SPARE: usize = 32;

/// A text on its way to a sink, which each call names. After a write that is refused nothing more is
/// written, and `finish` gives the error.
#[derive(Drop)]
pub struct TextOut {
    alloc: Global,
    held: Room,
    failure: Option<SinkError>,
}

impl Model for TextOut {
    ghost use Rattle.vx_text.specs.Text.{TextState};

    ghost Value = { TextState };

    ghost view = { λ w. record { held = w.held; failure = w.failure } };
}

/// Hands bytes to the sink, unless a write was refused before.
#[tactic(auto, using(crate::proofs::TextLemmas::adds_stopped, crate::proofs::TextLemmas::passes_ok, crate::proofs::TextLemmas::passes_err))]
fn pass<S: Sink>(alloc: Global, failure: &mut Option<SinkError>, out: &mut S, bytes: &[u8])
    ensures { Adds bytes.now (record { held = []; failure = failure.old }) (S.state out.old) (record { held = []; failure = failure.new }) (S.state out.new) }
{
    if failure.is_some() {
        return;
    }
    match write_all(alloc, out, bytes) {
        Ok(()) => {}
        Err(error) => *failure = Some(error),
    }
}

impl TextOut {
    pub fn new(alloc: Global) -> TextOut
        ensures { result ≡ new_text }
    {
        TextOut {
            alloc,
            held: Room::new(),
            failure: None,
        }
    }

    /// Hands bytes to the sink, behind an empty buffer.
    fn pass_behind<S: Sink>(&mut self, out: &mut S, bytes: &[u8])
        requires { self.old.held ≡ [] }
        ensures adds { Adds bytes.now self.old (S.state out.old) self.new (S.state out.new) }
        ensures held { self.new.held ≡ [] }
    {
        pass(self.alloc, &mut self.failure, out, bytes);
    }

    /// Hands what is held to the sink.
    #[cold]
    #[tactic(auto, using(crate::proofs::TextLemmas::adds_stopped, crate::proofs::TextLemmas::adds_taken))]
    fn send<S: Sink>(&mut self, out: &mut S)
        ensures adds { Adds [] self.old (S.state out.old) self.new (S.state out.new) }
        ensures held { self.new.held ≡ [] }
    {
        if self.failure.is_none() {
            pass(self.alloc, &mut self.failure, out, self.held.as_slice());
        }
        self.held.clear();
    }

    /// Adds bytes for which there is no room.
    #[cold]
    #[tactic(auto, using(crate::proofs::TextLemmas::adds_then, crate::proofs::TextLemmas::adds_nothing, crate::proofs::TextLemmas::adds_held, crate::proofs::TextLemmas::adds_later))]
    fn send_word<S: Sink>(&mut self, out: &mut S, bytes: &[u8])
        ensures { Adds bytes.now self.old (S.state out.old) self.new (S.state out.new) }
    {
        self.send(out);
        if bytes.len() <= self.held.left() {
            return self.held.extend(bytes);
        }
        self.pass_behind(out, bytes);
    }

    /// Adds many bytes, which go to the sink behind what is held.
    pub(crate) fn pass_on<S: Sink>(&mut self, out: &mut S, bytes: &[u8])
        ensures { Adds bytes.now self.old (S.state out.old) self.new (S.state out.new) }
    {
        self.send(out);
        self.pass_behind(out, bytes);
    }

    /// Adds bytes.
    #[inline]
    #[tactic(auto, using(crate::proofs::TextLemmas::adds_held))]
    pub fn word<S: Sink>(&mut self, out: &mut S, bytes: &[u8])
        ensures { Adds bytes.now self.old (S.state out.old) self.new (S.state out.new) }
    {
        if bytes.len() <= self.held.left() {
            return self.held.extend(bytes);
        }
        self.send_word(out, bytes);
    }

    /// Adds one byte.
    #[inline(always)]
    #[tactic(auto, using(crate::proofs::TextLemmas::adds_held))]
    pub fn byte<S: Sink>(&mut self, out: &mut S, byte: u8)
        ensures { Adds (byte ∷ []) self.old (S.state out.old) self.new (S.state out.new) }
    {
        if self.held.left() > 0 {
            return self.held.push(byte);
        }
        self.send_word(out, &[byte]);
    }

    /// Makes room for so many bytes.
    #[inline(always)]
    pub(crate) fn make_room_for<S: Sink>(&mut self, out: &mut S, size: usize)
        requires { size ≤ 32768 }
        ensures adds { Adds [] self.old (S.state out.old) self.new (S.state out.new) }
        ensures room { length self.new.held + size ≤ 32768 }
    {
        if self.held.left() >= size {
            return;
        }
        self.send(out);
    }

    /// Makes room for what is put and not added.
    #[inline(always)]
    pub fn make_room<S: Sink>(&mut self, out: &mut S)
        ensures adds { Adds [] self.old (S.state out.old) self.new (S.state out.new) }
        ensures room { length self.new.held + 32 ≤ 32768 }
    {
        self.make_room_for(out, SPARE);
    }

    /// Puts the bytes of a vector, for which there is room.
    #[inline(always)]
    pub(crate) fn put_vector(&mut self, bytes: u8x32)
        requires { length self.old.held + 32 ≤ 32768 }
        ensures holds { Holds bytes self.old self.new }
        ensures long { length self.new.held ≡ length self.old.held + 32 }
    {
        self.held.put_vector(bytes);
    }

    /// Puts one byte, for which there is room.
    #[inline(always)]
    pub fn push(&mut self, byte: u8)
        requires { length self.old.held < 32768 }
        ensures holds { Holds (byte ∷ []) self.old self.new }
        ensures long { length self.new.held ≡ length self.old.held + 1 }
    {
        self.held.push(byte);
    }

    /// Puts the digits of a number, for which there is room.
    #[inline(always)]
    pub fn put_digits(&mut self, number: u64)
        requires { length self.old.held + 20 ≤ 32768 }
        ensures { Holds (decimal number) self.old self.new }
    {
        self.held.put_digits(number);
    }

    /// Adds the digits of a number.
    #[tactic(auto, using(crate::proofs::TextLemmas::adds_put))]
    pub fn number<S: Sink>(&mut self, out: &mut S, number: u64)
        ensures { Adds (decimal number) self.old (S.state out.old) self.new (S.state out.new) }
    {
        self.make_room(out);
        self.put_digits(number);
    }

    /// Adds a number after a space.
    #[inline(always)]
    #[tactic(auto, using(crate::proofs::TextLemmas::adds_later))]
    pub fn number_after<S: Sink>(&mut self, out: &mut S, number: u64)
        ensures { Adds (32 ∷ decimal number) self.old (S.state out.old) self.new (S.state out.new) }
    {
        self.make_room(out);
        self.held.put_digits_after(b' ', number);
    }

    /// Adds the digits of a number, behind its sign where that is `-`.
    #[tactic(auto, using(crate::proofs::TextLemmas::adds_put, crate::proofs::TextLemmas::adds_later))]
    pub fn integer<S: Sink>(&mut self, out: &mut S, number: i64)
        ensures { Adds (signed_decimal number) self.old (S.state out.old) self.new (S.state out.new) }
    {
        self.make_room(out);
        if number >= 0 {
            return self.put_digits(number as u64);
        }
        self.held.put_digits_after(b'-', number.unsigned_abs());
    }

    /// Ends a line.
    #[inline(always)]
    pub fn end_line<S: Sink>(&mut self, out: &mut S)
        ensures { Adds (10 ∷ []) self.old (S.state out.old) self.new (S.state out.new) }
    {
        self.byte(out, b'\n');
    }

    /// Writes what is held, and flushes.
    #[tactic(auto, using(crate::proofs::TextLemmas::ends_broken, crate::proofs::TextLemmas::ends_with))]
    pub fn finish<S: Sink>(self, out: &mut S) -> Result<(), SinkError>
        ensures { Finishes self (S.state out.old) (S.state out.new) result }
    {
        match self.failure {
            Some(error) => Err(error),
            None => write_flushed(self.alloc, out, self.held.as_slice()),
        }
    }
}
