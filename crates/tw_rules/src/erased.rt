//! Rules without rights.

use crate::array_vec8::ArrayVec8;
use crate::planned::PlannedTask;
use tw_types::{DatumId, RuleNo, Stage};

/// An argument without its value or its right.
#[derive(Clone, Copy, PartialEq, Eq)]
pub enum ErasedArg {
    Val,
    /// A read right on the datum of this id.
    Read(DatumId),
    /// A write right on the datum of this id.
    Write(DatumId),
}

/// A rule that was pending, without rights: numbers and ids.
#[derive(Drop)]
pub struct ErasedRule {
    pub number: RuleNo,
    /// The number of the engine that held it.
    pub engine: u8,
    pub action: PlannedTask,
    pub args: ArrayVec8<ErasedArg>,
    /// The stage of each parameter.
    pub stages: ArrayVec8<Stage>,
}
