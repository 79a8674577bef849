//! The reference machine: the state of a running program, over maps and bare ids, and its events.
//!
//! Each event has exactly the machine's result, including the cause of a trap. Of the rights that tasks hold only the ids of the data
//! are stored. So a program that breaks the rules of rights traps; it isn't rejected before.
//!
//! * `Plain` is a machine with its program: `open`, `step`, `ending`, `state`.
//! * `State` is the machine's state: live data, running and waiting tasks, pending rules, notices.
#![tactic(auto)]

mod event_actor;
mod events;
mod opened;
mod opening;
mod plain;
mod rank;
mod ranks;
mod rejection;
mod rule;
mod rules;
mod state;
mod tables;
mod tasks;

pub use event_actor::actor_of;
pub use plain::Plain;
pub use rejection::{OpenError, OpenRefused};
pub use rule::Rule;
pub use state::State;
pub use tw_instr::{Arg, Datum, Frame, NoticeKey, Stopped, Task};
