//! The task that executes an event.

use tw_machine::{Frame, Plain};
use tw_types::{Actor, TaskNo};

/// A task that runs.
#[derive(Clone, Copy)]
pub struct Executor {
    pub task: TaskNo,
    pub procedure: u8,
    /// The number of instructions that it has executed.
    pub spent: u64,
}

impl Executor {
    /// Returns the task of a frame, with what it has executed.
    fn of(frame: &Frame) -> Executor {
        Executor {
            task: frame.task(),
            procedure: frame.procedure(),
            spent: frame.spent(),
        }
    }

    /// Returns the task that an actor runs, if it runs one.
    pub fn by(plain: &Plain, actor: Actor) -> Option<Executor> {
        match plain.state().frame(actor) {
            Some(frame) => Some(Executor::of(frame)),
            None => None,
        }
    }
}
