//! Results of scheduling steps.

use tw_frame::{Done, Job};

/// The reason why a run is over.
#[derive(Clone, Copy, PartialEq, Eq)]
pub enum Closing {
    /// No event is enabled, and no rule is pending.
    Quiet,
    /// No event is enabled, and this many rules are pending, at least one.
    Stuck(u64),
    /// The run was stopped.
    Stopped,
    /// The limit of events is reached.
    Limit,
}

/// The result of a scheduling step.
#[derive(Drop)]
pub enum Turn<'a> {
    /// The run is over. A `Done` that was passed is dropped.
    Over(Closing),
    /// The `Done` isn't of the job that is issued to the actor, and is returned.
    Foreign(Done<'a>),
    /// The caller has the actor's job, and must submit its result first.
    Owed,
    /// An allocation failed, and nothing has changed. A `Done` that was passed is returned.
    NoMemory(Option<Done<'a>>),
    /// The actor's job, to be run.
    Run(Job<'a>),
    /// The actor's task has ended.
    Ended,
    /// An event was made that issues no job.
    Went,
    /// No event of the actor is enabled.
    Idle,
}
