//! Output about traces: replays, their statistics and timelines, and details after them.
#![tactic(auto)]

mod disabled;
mod drawn;
mod numbers;
mod opening;
mod replay;
mod replay_details;
mod replaying;
mod state_json;
mod stuck;

pub use disabled::Unplayed;
pub use drawn::draw;
pub use numbers::{budgets_of, count, put_bytes};
pub use opening::{first_unfit, inputs_refused_reply};
pub use replay::replayed_reply;
pub use replaying::{Replaying, play};
pub use state_json::instructions_by;
pub use stuck::put_circle;
