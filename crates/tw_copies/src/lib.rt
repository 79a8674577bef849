//! A check of a program's text. If no insertion uses a right that may be a copy, outputs are the same in every order of events.
#![tactic(auto)]

mod check;
mod insertions;
mod marks;

pub use check::{CopyInsertion, first_copy_insertion};
