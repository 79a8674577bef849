//! The verifier: accepts a program, or returns its first error.
//!
//! An accepted program has a list of typings for each procedure, which says which right each right register has at each place. It
//! also has a budget, the greatest number of instructions of a task. A rejected one is returned with its first error.
//!
//! * For one place: `place_rejection` returns the lowest error there; a `Typing` is the content of the right registers.
//! * For a program: `verify`, and its result `Verified`.
//! * For all runs: the theorem `no_trap`.
#![tactic(auto)]

mod arguments;
mod fault;
mod findings;
mod instructions;
mod loops;
mod needs;
mod on_data;
mod pass;
mod questions;
mod quick;
mod reached;
mod refused;
mod rejection;
mod searching;
mod structure;
mod theorems;
mod typing;
mod verified;
mod verifier;

pub use instructions::place_rejection;
pub use quick::Quick;
pub use reached::next_place;
pub use refused::Refused;
pub use rejection::{Held, Requirement, Unmet, VerifyError};
pub use theorems::{ends_well, no_trap, one_first_rejection};
pub use tw_soundness::{budgets_held, counts_held, notes_held, types_held};
pub use typing::{RightType, Typing};
pub use verified::Verified;
pub use verifier::verify;
