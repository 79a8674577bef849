//! Stop signals, at which a run looks before each of its steps.
#![tactic(auto)]

mod deadline;
mod signal;

pub use deadline::Deadline;
pub use signal::{Never, StopSignal};
