//! Runs in one thread: the actors of a pool make their scheduling steps one after the other.
#![tactic(auto)]

mod drawn;
mod rounds;
mod run;
mod theorems;
mod timed;

pub use rounds::End;
pub use run::{EndedRun, run_in_turn, run_until};
pub use theorems::{ends_below_limit, executes_few, one_run};
pub use timed::run_timed;
