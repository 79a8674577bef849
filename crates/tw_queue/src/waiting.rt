//! Waiting tasks.

use tw_rights::Task;
use tw_types::Kind;

/// A waiting task, with its priority, kind and target.
pub struct Waiting {
    pub priority: i64,
    pub task: Task,
    pub kind: Kind,
    pub target: Option<u8>,
}

impl Waiting {
    /// Spends every right of a queued task.
    pub fn spend(self) {
        let Waiting {
            kind: _,
            priority: _,
            target: _,
            task,
        } = self;
        let Task {
            no: _,
            procedure: _,
            args,
        } = task;
        args.shut();
    }
}
