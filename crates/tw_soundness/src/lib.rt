//! The soundness theorem: properties of every state that an accepted program reaches.
#![tactic(auto)]

mod theorems;

pub use theorems::{budgets_held, counts_held, ends_well, no_trap, notes_held, types_held};
