//! Writes reports, errors and events, and reads events and traces.
#![tactic(auto)]

mod argument;
mod endings;
mod event_line;
mod history;
mod lines;
mod outputs;
mod pending;
mod read_event;
mod report_source;
mod state_report;
mod theorems;
mod walk;
mod words;

pub use endings::{ending_text, text_of};
pub use event_line::put_event_line;
pub use history::{HistoryFault, cut_history, read_history};
pub use lines::{put, put_history_line, put_not_enabled_line, put_numbered, put_trap_line};
pub use outputs::put_report;
pub use read_event::event_of;
pub use report_source::ReportSource;
pub use state_report::{circle_state, ending_line, report_state};
pub use theorems::{events_are_read_back, one_event, one_history};
pub use walk::circle_of;
