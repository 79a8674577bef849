//! The lines of cases, and the kinds of cases that need neither a host nor a session.
#![tactic(auto)]

mod book;
mod bytes;
mod case;
mod complaint;
mod events;
mod hoard;
mod layouts;
mod machine;
mod parts;
mod play;
mod programs;
mod state;
mod text;
mod waiting;

pub use book::Book;
pub use bytes::read_bytes;
pub use case::{CaseLine, Line, first_field, read_line};
pub use complaint::Complaint;
pub use events::read_actor;
pub use hoard::Hoard;
pub use layouts::{layout_text, read_layout};
pub use machine::{machine_text, open_text, read_inputs, replay_all, state_text, steps_text};
pub use parts::part_text;
pub use programs::{read_program, read_verified, with_bytes};
pub use text::Text;
