//! The state of a pool.

use crate::outputs::Outputs;
use crate::running_tasks::RunningTasks;
use tw_queue::TaskQueues;
use tw_rules::RuleTable;
use tw_store::Store;

/// All parts of which the machine's state consists.
pub struct Parts<'a> {
    pub store: Store,
    pub rules: RuleTable,
    pub tasks: TaskQueues,
    /// The number of the task that is put next.
    pub next_task: u64,
    pub running_tasks: RunningTasks<'a>,
    pub outputs: Outputs,
}
