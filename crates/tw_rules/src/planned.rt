//! The tasks that rules become.

/// The task that a rule becomes when it is released, without its arguments.
#[derive(Clone, Copy, PartialEq, Eq)]
pub struct PlannedTask {
    pub procedure: u8,
    pub priority: i64,
    /// The number of the one actor that may take the task, or `None` for any.
    pub target: Option<u8>,
}
