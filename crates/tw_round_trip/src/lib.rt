//! Round trips of what the command prints: a run's trace is read back, and its replay prints the run's report.
#![tactic(auto)]

mod theorems;

pub use theorems::{replays_print_reports, traces_are_read_back};
