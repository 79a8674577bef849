//! The share of an event in the counts of a trace.

ghost use Rattle.tw_stats.specs.Sums.{IsShare};

use tw_types::Event;

/// The share of an event in the counts.
#[derive(Clone, Copy)]
pub struct Share {
    /// The index of its kind, in the order of the lines.
    pub kind: u64,
    /// The number of tasks that it takes: one or none.
    pub tasks: u64,
    /// The number of instructions of its task that it executes; an `End` executes the RET.
    pub instructions: u64,
    /// Its steps: one for each local instruction, and one for each other event.
    pub steps: u64,
}

/// Returns the share of an event.
pub fn share_of(event: &Event) -> Share
    ensures { IsShare result }
{
    let (kind, tasks, instructions, steps) = match *event {
        Event::Take(_) => (0, 1, 0, 1),
        Event::Local(_, steps) => (1, 0, steps, steps),
        Event::Call(_) => (2, 0, 1, 1),
        Event::End(_) => (3, 0, 1, 1),
        Event::Ask(_, _, _) => (4, 0, 0, 1),
        Event::Deliver(_, _, _, _) => (5, 0, 0, 1),
        Event::Release(_, _) => (6, 0, 0, 1),
    };
    Share {
        kind,
        tasks,
        instructions,
        steps,
    }
}
