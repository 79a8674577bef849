//! Ends of a session in which reads, writes and allocations succeeded.

use crate::failure::Failure;

/// An end of a session in which reads, writes and allocations succeeded.
#[derive(Clone, Copy, PartialEq, Eq)]
pub enum Close {
    /// All output is written, and a run was quiet; or the help was requested.
    Success,
    /// Text, bytes, program, inputs or layout were rejected.
    Refused(Failure),
    /// The arguments of the command line were rejected.
    CommandLine,
    /// Inputs can't be read: a word, or JSON.
    Unreadable(Failure),
    /// Nothing was left to do, and rules were pending.
    Stuck,
    /// The run reached its event limit.
    Limit,
    /// The run met a trap.
    Trapped(Failure),
}
