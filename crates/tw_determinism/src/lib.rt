//! Determinism of accepted programs: if no insertion is contested, a run's outputs don't depend on the order of its events.
#![tactic(auto)]

mod theorems;

pub use theorems::{one_result_if_uncontested, one_result_if_uncopied, one_result_if_unrefused};
