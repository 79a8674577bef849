//! Stop flags.

ghost use Rattle.std.specs.Prelude.{Some, true, false};
ghost use Rattle.tw_handles.specs.Stops.{IsFlagPut, IsFlagShared, IsStopMade, IsStopSet};

use crate::codes;
use crate::handle::Handle;
use crate::held::Held;
use std::alloc::Global;
use tw_flags::StopFlag;

/// Puts a flag into a handle.
fn put_flag(alloc: Global, flag: StopFlag, other: &mut Handle) -> u8
    ensures { IsFlagPut flag other.old.held other.new.held result }
{
    match Handle::of_held(alloc, Held::Stop(flag)) {
        Ok(handle) => {
            *other = handle;
            codes::DONE
        }
        Err(_) => codes::NO_MEMORY,
    }
}

/// Makes a stop flag that isn't raised. The handle's former contents are freed.
pub fn stop_new(alloc: Global, stop: &mut Handle) -> u8
    ensures { IsStopMade stop.old.held stop.new.held result }
{
    match StopFlag::new(alloc) {
        Ok(flag) => put_flag(alloc, flag, stop),
        Err(_) => codes::NO_MEMORY,
    }
}

/// Makes `other` another handle of a flag, for use in another thread.
pub fn stop_share(alloc: Global, flag: &StopFlag, other: &mut Handle) -> u8
    ensures { IsFlagShared flag.now other.old.held other.new.held result }
{
    match flag.share() {
        Ok(copy) => put_flag(alloc, copy, other),
        Err(_) => codes::NO_MEMORY,
    }
}

/// Sets a flag, if the contents are one.
fn set_held(held: &mut Held, raised: bool) -> u8
    ensures { IsStopSet raised (Some held.old) (Some held.new) result }
{
    match held {
        Held::Stop(flag) => {
            flag.set(raised);
            codes::DONE
        }
        Held::Program(_) | Held::Inputs(_) | Held::Report(_) | Held::Container(_) | Held::Text(_) =>
            codes::NO_STOP,
    }
}

/// Sets the flag of a handle.
fn set_flag(alloc: Global, stop: &mut Handle, raised: bool) -> u8
    ensures { IsStopSet raised stop.old.held stop.new.held result }
{
    let Some(mut whole) = stop.take(alloc) else {
        return codes::NO_STOP;
    };
    let code = set_held(&mut whole, raised);
    *stop = Handle::of(whole);
    code
}

/// Raises a flag: runs that look at it end before their next turn, or within a task. Allocates nothing, so that a signal handler may call it.
pub fn stop_raise(alloc: Global, stop: &mut Handle) -> u8
    ensures { IsStopSet true stop.old.held stop.new.held result }
{
    set_flag(alloc, stop, true)
}

/// Lowers a flag, for later runs.
pub fn stop_lower(alloc: Global, stop: &mut Handle) -> u8
    ensures { IsStopSet false stop.old.held stop.new.held result }
{
    set_flag(alloc, stop, false)
}
