//! A theorem on isolation: which data an event may change, and with which right.
#![tactic(auto)]

mod theorems;

pub use theorems::isolated;
