//! Runs with each smaller limit, compared with the reference machine after as many events.

ghost use Rattle.std.specs.Prelude.{◌≤◌, length};
ghost use Rattle.tw_code.specs.machine.Bounds.{AreBelow, opening_bound};

use crate::case::Case;
use crate::replay::{goes, has_report};
use crate::rounds::run_in_rounds;
use std::alloc::Global;
use tw_machine::Plain;
use tw_types::Event;

/// Returns whether a run with this limit makes exactly these events, and has the machine's report.
fn agrees_at(alloc: Global, case: &Case, plain: &Plain, events: &[Event]) -> bool {
    match run_in_rounds(alloc, case, events.len()) {
        Some(run) => run.events.as_slice() == events && has_report(alloc, plain, &run),
        None => false,
    }
}

/// Returns whether the run agrees at each number of these events.
fn all_agree(alloc: Global, case: &Case, first: Plain, events: &[Event]) -> bool
    requires few { length events.now ≤ 1000000 }
    requires low { AreBelow opening_bound first.state }
{
    let mut plain = first;
    for (index, event) in events.iter().enumerate() {
        if !goes(alloc, &mut plain, event, index) {
            return false;
        }
        if !agrees_at(alloc, case, &plain, &events[..index + 1]) {
            return false;
        }
    }
    true
}

/// Returns whether a run agrees at each number of its events.
pub fn agree_at_each(alloc: Global, case: &Case, events: &[Event]) -> bool {
    if events.len() > 1_000_000 {
        return false;
    }
    match case.machine(alloc) {
        Some(plain) => all_agree(alloc, case, plain, events),
        None => false,
    }
}
