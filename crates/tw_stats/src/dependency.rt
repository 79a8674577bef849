//! The things for which events wait.

use tw_types::{DatumId, RuleNo, TaskNo};

/// A thing that one event provides, and for which others wait.
#[derive(Clone, Copy)]
pub enum Dependency {
    /// A task: its PUT, and everything that it has done.
    Task(TaskNo),
    /// A rule that is made.
    Rule(RuleNo),
    /// The answers about a rule's parameters.
    Answer(RuleNo),
    /// The writes to a datum.
    Datum(DatumId),
}
