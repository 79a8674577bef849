//! A pool under its one lock, and a seat for each actor, from which a driver makes its scheduling steps.
#![tactic(auto)]

mod batch;
mod bits;
mod close;
mod host;
mod locked;
mod named;
mod parkers;
mod progress;
mod seat;
mod sleepers;

pub use batch::MOST_TURNS;
pub use close::Closed;
pub use host::Host;
pub use locked::Strange;
pub use named::Named;
pub use seat::{Seat, SentSeat, SentSeats};
