//! Output about programs: what is assembled, checks, listings, and errors as JSON.
#![tactic(auto)]

mod acceptance;
mod admission;
mod answer;
mod assembled;
mod bounds;
mod check;
mod check_json;
mod error_json;
mod event_order;
mod listing;
mod place;
mod requested;
mod rows;
mod text_listing;

pub use acceptance::{Admitted, admit};
pub use admission::is_within_caps;
pub use assembled::assembled_reply;
pub use check::checked_reply;
pub use error_json::{error_line, failure_in, listed_error_line};
pub use event_order::{order_value, put_insertion};
pub use listing::disassembled;
