//! Waiting tasks. Finds the best task of each actor without a search.
#![tactic(auto)]

mod index;
mod queues;
mod queues_by_target;
mod rank;
mod run_queue;
mod slots;
mod waiting;

pub use queues::TaskQueues;
pub use tw_rights::Task;
