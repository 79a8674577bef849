//! Statistics as a value, before they are text.

use crate::counts::Counts;
use crate::table::Table;

/// The statistics of a trace.
#[derive(Drop)]
pub struct Stats {
    pub counts: Counts,
    /// The most instructions that one task of each procedure executes.
    pub most: Table,
    /// The number of events of each actor, by its index in the layout.
    pub actors: Table,
    /// The number of steps of the longest chain of events that wait for one another.
    pub chain: u64,
}
