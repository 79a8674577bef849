//! Drivers, which make the scheduling steps of a host's seats, each in its own thread.
#![tactic(auto)]

mod driver;
mod driver_calls;
mod gate;
mod threads;
mod timed;

pub use driver::{Driven, drive, drive_at};
pub use driver_calls::{DriverCalls, ObservedHost};
pub use gate::{Gate, NoGate, Progress, SoFar};
pub use threads::{run, run_all};
pub use timed::Timed;
