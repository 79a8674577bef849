//! A session of the command `tw`: it maps an order and bytes to text and a status.
//!
//! `session` works over any reader and writer, `given_session` over bytes that were read. `reply_to` returns their reply to an order, `unordered_session`
//! writes that to arguments without one. `answer_in_turn` returns the reply to arguments, and has neither streams nor threads.
#![tactic(auto)]

mod action;
mod in_turn;
mod input;
mod json;
mod line_progress;
mod line_session;
mod line_threads;
mod order;
mod parts;
mod prepare;
mod programs;
mod run;
mod shell;
mod status;
mod streams;
mod turns;

pub use in_turn::answer_in_turn;
pub use input::MOST_BYTES;
pub use line_session::each_session;
pub use order::reply_to;
pub use parts::Given;
pub use shell::{given_session, session, unordered_session, without_words};
pub use status::Status;
pub use streams::{InStream, OutStream};
pub use tw_inputs::input_of;
pub use tw_source::{Close, ErrorCode, Failure, Position, Reply};
pub use tw_workers::{Gate, NoGate, Progress, SoFar};
