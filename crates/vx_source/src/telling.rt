//! What a session tells its scheduler.
ghost use Rattle.std.specs.Prelude.{◌≡◌, ◌+◌, ◌<◌, ◌≤◌, ◌^◌, OnOk, OnErr};
ghost use Rattle.vx_sched.specs.Reads.{ranges_in_flight};
ghost use Rattle.vx_sched.specs.Span.{end_of};
ghost use Rattle.vx_sched.specs.Scheduling.{SameSettings, requested, polled, dropped};

use std::alloc::AllocError;
use vx_sched::{ReadEvent, ReadRequest, State};

/// A read begins. Only memory refuses.
#[inline(always)]
pub fn tell_begin(core: &mut State, request: ReadRequest) -> Result<(), AllocError>
    requires next { core.old.next ≤ request.id }
    requires fits { end_of request < 2 ^ 64 }
    ensures value { OnOk result (core.new ≡ requested core.old request) }
    ensures ranges { ranges_in_flight core.new.reads ≤ ranges_in_flight core.old.reads }
    ensures settings { SameSettings core.old core.new }
    ensures err { OnErr result (core.new ≡ core.old) }
{
    core.on_event(ReadEvent::Request(request))?;
    Ok(())
}

/// A read was polled.
#[inline(always)]
pub fn tell_poll(core: &mut State, r: u64)
    ensures value { core.new ≡ polled core.old r }
    ensures ranges { ranges_in_flight core.new.reads ≤ ranges_in_flight core.old.reads }
    ensures settings { SameSettings core.old core.new }
{
    match core.on_event(ReadEvent::Polled(r)) {
        Ok(()) => {}
        Err(_) => unreachable!(),
    }
}

/// A read was dropped.
#[inline(always)]
pub fn tell_drop(core: &mut State, r: u64)
    ensures value { core.new ≡ dropped core.old r }
    ensures ranges { ranges_in_flight core.new.reads ≤ ranges_in_flight core.old.reads }
    ensures settings { SameSettings core.old core.new }
{
    match core.on_event(ReadEvent::Dropped(r)) {
        Ok(()) => {}
        Err(_) => unreachable!(),
    }
}

/// A block of spans is to be gathered. Only memory refuses.
pub fn tell_block(core: &mut State) -> Result<(), AllocError>
    ensures { core.new ≡ core.old }
{
    core.arrange()?;
    Ok(())
}
