//! Decodes and encodes programs.
//!
//! Each program has exactly one encoding. `decode` reads it, or returns the first fault from the left; `encode` writes it.
#![tactic(auto)]

mod actions;
mod fault;
mod items;
mod many;
mod parts;
mod reading;
mod rows;
mod texts;
mod theorems;
mod writing;

pub use fault::{Fault, FaultNo};
pub use reading::decode;
pub use theorems::keeps_versions;
pub use writing::encode;
