//! Output of a finished run on the pool: report, circle, trace, statistics and timeline.
#![tactic(auto)]

mod closing_text;
mod end_report;
mod ended;
mod event_order;
mod finished_run;
mod json;
mod run_details;

pub use end_report::{circle, report};
pub use ended::{ended_reply, events_of, trace};
pub use json::{end_line, instructions_in};
