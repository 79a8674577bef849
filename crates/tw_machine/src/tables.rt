//! The state without the running tasks.

use crate::rules::Rules;
use crate::tasks::Tasks;
use tw_instr::{Data, Notices};

/// The data, the rules, the tasks and the notices.
#[derive(Drop)]
pub struct Tables {
    pub store: Data,
    pub rules: Rules,
    pub tasks: Tasks,
    pub notices: Notices,
}
