//! A run under one lock: its state, and the list of its events.
#![tactic(auto)]

mod answer;
mod ends;
mod events;
mod history;
mod idle;
mod open;
mod pending;
mod pool;
mod scheduling;
mod submit;
mod turn;
mod words;
mod work;

pub use answer::{Closing, Turn};
pub use ends::Final;
pub use events::Events;
pub use history::History;
pub use open::OpenError;
pub use pool::Pool;
