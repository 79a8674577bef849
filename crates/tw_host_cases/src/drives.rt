//! Cases of seats that are driven in one thread, one after another.

ghost use Rattle.std.specs.Prelude.{◌≡◌, ◌<◌, vec_len};
ghost use Rattle.tw_host.specs.Seats.{actor_count};

use crate::given::Given;
use crate::threads::put_end;
use std::alloc::Global;
use std::marker::Brand;
use std::sync::Wait;
use std::sync::ledger::Blank;
use std::time::Clock;
use tw_case_lines::{Complaint, Text};
use tw_host::{Closed, Host, Named, Seat};
use tw_verify::Verified;
use tw_workers::{Driven, NoGate, drive};

/// Drives the first seat, and puts it after the others. Returns whether an allocation failed.
fn drive_first<'a, N: Named, R: Wait + Clock>(
    rt: &R,
    alloc: Global,
    host: &Host<'a, N>,
    seats: &mut Vec<Seat<N>>,
) -> bool
    requires { 0 < vec_len seats.old }
    ensures { vec_len seats.new ≡ vec_len seats.old }
{
    let seat = seats.remove(0);
    let Driven { seat, memory } = drive(rt, alloc, host, seat, &NoGate);
    seats.push_reserved(seat);
    memory
}

/// Drives the engine's seat to the end of the run, then the others; or stops the run first. Returns whether an allocation failed, and how the host
/// closed. Returns None if the host isn't opened, doesn't publish the end, or lost a wake.
fn driven_by<N: Named, R: Wait + Clock>(
    rt: &R,
    alloc: Global,
    blank: Blank,
    verified: &Verified,
    given: &Given,
    is_stopped: bool,
) -> Option<(bool, Closed)>
    requires ledger { (blank.name ≡ N.name) × (blank.parts ≡ N.parts) × (blank.parts ≡ actor_count given.now.layout) }
    requires run { N.run ≡ record { program = verified.now; inputs = given.now.inputs.items; layout = given.now.layout; limit = given.now.limit } }
    requires three { actor_count given.now.layout ≡ 3 }
{
    let inputs = given.inputs.as_slice();
    let opened = Host::<N>::open(alloc, blank, verified, inputs, given.layout, given.limit);
    let Ok((host, mut seats)) = opened else {
        return None;
    };
    let mut is_well = true;
    if is_stopped {
        host.stop(rt);
        is_well = host.events_so_far().is_none();
    }
    let engine = drive_first(rt, alloc, &host, &mut seats);
    let server = drive_first(rt, alloc, &host, &mut seats);
    let worker = drive_first(rt, alloc, &host, &mut seats);
    is_well &= host.events_so_far().is_none();
    is_well &= host.missed_wakes(rt) == 0;
    let closed = host.close(seats);
    if is_well {
        Some((engine | server | worker, closed))
    } else {
        None
    }
}

/// Drives the seats of one engine, one server and one worker. Returns how many events there are, the events, and the report.
pub fn drives_text<R: Wait + Clock>(
    rt: &R,
    alloc: Global,
    verified: &Verified,
    given: &Given,
    is_stopped: bool,
) -> Result<String, Complaint> {
    if given.layout.actor_count() != 3 {
        return Err(Complaint::SeatCount);
    }
    let blank = Blank::new(3);
    let mut text = Text::new(alloc);
    match driven_by::<Brand, R>(rt, alloc, blank, verified, given, is_stopped) {
        Some((false, closed)) => put_end(&mut text, &closed, true),
        _ => text.put("not opened, its end isn't published, a wake got lost, or memory ran out"),
    }
    text.into_line()
}
