//! Events on the reference machine, and its report after them.

ghost use Rattle.std.specs.Prelude.{◌+◌, ◌*◌, ◌≤◌, ◌↔◌, length, IsTrue};
ghost use Rattle.tw_code.specs.machine.Bounds.{AreBelow, opening_bound, size_of};

use std::alloc::{AllocError, Global};
use tw_machine::Plain;
use tw_pool::{Closing, Final, History};
use tw_report::{put_report, report_state};
use tw_run_output::{events_of, report};
use tw_types::Event;

/// Returns whether an event of a fuzz test executes at most a thousand million instructions.
fn is_short(event: Event) -> bool
    ensures { IsTrue result ↔ (size_of event ≤ 1000000000) }
{
    match event {
        Event::Local(_, steps) => steps <= 1_000_000_000,
        Event::Take(_) | Event::Call(_) | Event::End(_) => true,
        Event::Ask(..) | Event::Deliver(..) | Event::Release(..) => true,
    }
}

/// Makes an event on the reference machine after `before` others. Returns whether it succeeded.
pub fn goes(alloc: Global, plain: &mut Plain, event: &Event, before: usize) -> bool
    requires few { before ≤ 1000000 }
    requires low { AreBelow (opening_bound + 1000000000 * before) plain.old.state }
    ensures { IsTrue result → AreBelow (opening_bound + 1000000000 * (before + 1)) plain.new.state }
{
    if !is_short(*event) {
        return false;
    }
    plain.step(alloc, *event).is_ok()
}

/// Returns the reference machine after the events of a random program's run, or `None` if one doesn't succeed.
fn play(alloc: Global, first: Plain, events: &[Event]) -> Option<Plain>
    requires few { length events.now ≤ 1000000 }
    requires low { AreBelow opening_bound first.state }
{
    let mut plain = first;
    for (index, event) in events.iter().enumerate() {
        if !goes(alloc, &mut plain, event, index) {
            return None;
        }
    }
    Some(plain)
}

/// Returns the report of the reference machine's state after a random program's run, with the run's last line.
fn text_of(alloc: Global, plain: &Plain, closing: Closing) -> Result<Vec<u8>, AllocError> {
    if closing != Closing::Limit || plain.ending().is_some() {
        return report_state(alloc, plain);
    }
    let mut text = Vec::new(alloc);
    put_report(&mut text, plain.state(), "limit\n".as_bytes())?;
    Ok(text)
}

/// A finished run: why it is over, its report, and its events.
#[derive(Drop)]
pub struct Ended {
    pub closing: Closing,
    pub text: Vec<u8>,
    pub events: Vec<Event>,
}

/// Returns the results of a finished run of a random program.
pub fn end_of(alloc: Global, left: &Final, history: &History) -> Option<Ended> {
    let closing = left.closing()?;
    let text = report(alloc, left).ok()?;
    let events = events_of(alloc, history).ok()?;
    Some(Ended {
        closing,
        text,
        events,
    })
}

/// Returns whether a machine has the same report.
pub fn has_report(alloc: Global, plain: &Plain, wanted: &Ended) -> bool {
    match text_of(alloc, plain, wanted.closing) {
        Ok(text) => text.as_slice() == wanted.text.as_slice(),
        Err(_) => false,
    }
}

/// Returns whether the reference machine makes the events of a random program's run, and then has the same report.
pub fn agrees(alloc: Global, first: Plain, events: &[Event], wanted: &Ended) -> bool
    requires { AreBelow opening_bound first.state }
{
    if events.len() > 1_000_000 {
        return false;
    }
    match play(alloc, first, events) {
        Some(plain) => has_report(alloc, &plain, wanted),
        None => false,
    }
}
