//! Tasks whose arguments are rights.

use crate::bundle::Bundle;
use tw_types::TaskNo;

/// A task: its number, its procedure and its arguments.
pub struct Task {
    pub no: TaskNo,
    pub args: Bundle,
    pub procedure: u8,
}
