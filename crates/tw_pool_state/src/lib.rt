//! The state of a pool in parts, with one function for each event. Each function makes the machine's own step on the state of the
//! parts.
#![tactic(auto)]

mod advance;
mod ask;
mod call;
mod data;
mod deliver;
mod end;
mod input_data;
mod open;
mod operands;
mod outputs;
mod parts;
mod put;
mod quiet;
mod release;
mod rule;
mod running_tasks;
mod shut;
mod take;
mod task_slots;
mod work;

pub use outputs::Outputs;
pub use parts::Parts;
pub use running_tasks::RunningTasks;
pub use shut::Remains;
