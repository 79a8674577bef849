//! Certificates of runs: that a run's outputs are those of every order of events.
#![tactic(auto)]

mod certificate;
mod contests;
mod theorems;

pub use certificate::first_contest;
pub use theorems::equal_outputs_print_alike;
