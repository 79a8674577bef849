//! Bounds of runs.

ghost use Rattle.std.specs.Prelude.{◌≡◌};
ghost use Rattle.tw_bounds.specs.Reports.{reported};

use crate::row::GREATEST_BOUND;

/// The greatest number of things of one kind that a task makes, with all tasks that descend from it.
#[derive(Clone, Copy, Debug)]
pub enum Bound {
    AtMost(u64),
    /// The number is over `GREATEST_BOUND`.
    Over,
    /// The task's procedure calls itself, directly or through others, so there is no such number.
    Endless,
}

impl Bound {
    /// Makes a reported bound from a number that was capped over the greatest one.
    pub(crate) fn from_capped(number: Option<u64>) -> Bound
        ensures { result ≡ reported number }
    {
        match number {
            Some(number) if number <= GREATEST_BOUND => Bound::AtMost(number),
            Some(_) => Bound::Over,
            None => Bound::Endless,
        }
    }
}

/// Bounds of what a task makes, with all tasks that descend from it: one for each procedure, in their order.
/// The first is main's, and holds for each run of the program.
#[derive(Drop)]
pub struct RunBounds {
    /// Tasks that are taken, the task itself included.
    pub tasks: Vec<Bound>,
    /// Instructions that are executed.
    pub instructions: Vec<Bound>,
    /// Data made by NEW.
    pub data: Vec<Bound>,
    /// Rules made by RULE.
    pub rules: Vec<Bound>,
    /// Members that the data hold beyond those of the inputs, at any time.
    pub members: Vec<Bound>,
    /// Bytes of the texts beyond those of the inputs, at any time: 4,096 for each scalar of texts, for each subscript or value that is
    /// a text, and for each text in the arguments of a waiting task or a rule, or in the registers of a running task.
    pub bytes: Vec<Bound>,
    /// Events of the run.
    pub events: Vec<Bound>,
}
