//! Events on the reference machine.

ghost use Rattle.std.specs.Prelude.{◌↔◌, ◌≤◌, length, IsTrue};
ghost use Rattle.tw_code.specs.machine.Bounds.{AreBelow, opening_bound, size_of};

use crate::complaint::Complaint;
use std::alloc::Global;
use tw_machine::{Plain, Stopped};
use tw_types::Event;

/// The machine after some events, and the result of each.
#[derive(Drop)]
pub struct Course {
    pub plain: Plain,
    pub answers: Vec<Result<(), Stopped>>,
}

/// Returns whether an event of a case executes at most 1,000,000,000 instructions.
fn has_few_instructions(event: Event) -> bool
    ensures { IsTrue result ↔ (size_of event ≤ 1000000000) }
{
    match event {
        Event::Local(_, steps) => steps <= 1_000_000_000,
        Event::Take(_) | Event::Call(_) | Event::End(_) => true,
        Event::Ask(..) | Event::Deliver(..) | Event::Release(..) => true,
    }
}

/// Executes at most 10,000 events of a case on the reference machine, also those after one that failed.
pub fn played(alloc: Global, first: Plain, events: &[Event]) -> Result<Course, Complaint>
    requires { AreBelow opening_bound first.state }
{
    if events.len() > 10_000 {
        return Err(Complaint::ManyEvents);
    }
    play(alloc, first, events)
}

/// Executes events of a case on the reference machine, each with its result.
fn play(alloc: Global, first: Plain, events: &[Event]) -> Result<Course, Complaint>
    requires few { length events.now ≤ 10000 }
    requires low { AreBelow opening_bound first.state }
{
    let mut plain = first;
    let mut answers = Vec::new(alloc);
    for event in events {
        if !has_few_instructions(*event) {
            return Err(Complaint::LongEvent);
        }
        answers.push(plain.step(alloc, *event))?;
    }
    Ok(Course { plain, answers })
}
