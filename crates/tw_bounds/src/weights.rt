//! Weights of what is counted along a run.

/// The weight of each thing in a run. A bound of the weighted sum is computed for one choice of weights.
#[derive(Clone, Copy)]
pub struct Weights {
    /// A task that is taken.
    pub task: u32,
    /// An instruction that is executed, RET included.
    pub instr: u32,
    /// A datum made by NEW.
    pub datum: u32,
    /// A rule made by RULE.
    pub rule: u32,
    /// An event of a rule: an Ask and a Deliver for a `closed` parameter, and its Release.
    pub rule_event: u32,
    /// A member that INS inserts, or a value that MINS or MADD puts.
    pub member: u32,
    /// A text: a scalar of texts that NEW makes, a subscript or value of INS, MINS or MADD that is a text, or a register of texts of a
    /// task that is taken.
    pub text: u32,
}
