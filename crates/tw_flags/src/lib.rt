//! Stop flags, which threads share. A flag's values are one list, of which each holder has seen a prefix.
#![tactic(auto)]

mod calls;
mod flag;
mod rule;

pub use flag::{FlagSignal, SeenValues, StopFlag};
pub use rule::FlagRule;
