//! The table of pending rules. For each engine it has the rule that is asked for next, and the one that is released next.
#![tactic(auto)]

mod agenda;
mod array_vec8;
mod asks;
mod entries;
mod erased;
mod pending;
mod planned;
mod release_heap;
mod table;

pub use array_vec8::ArrayVec8;
pub use erased::{ErasedArg, ErasedRule};
pub use planned::PlannedTask;
pub use table::RuleTable;
