//! Runs an accepted program on each line of inputs, and answers each line with a JSON object on one line.
#![tactic(auto)]

mod answer;
mod line_count;
mod lines;
mod no_clock;
mod numbered;
mod pace;
mod parts;
mod reply;
mod stream;
mod streamed;
mod team;
mod threads;
mod together;
mod worst;

pub use line_count::LineCount;
pub use reply::too_long_reply;
pub use stream::StreamError;
pub use streamed::{Streamed, stream_each};
pub use threads::LineThreads;
pub use together::{each_reply, each_reply_in_turn};
pub use worst::{WorstEnd, close_of};
