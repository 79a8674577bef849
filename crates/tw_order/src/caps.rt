//! Caps on runs: a program whose bounds are larger isn't admitted.

/// The most that a run of an admitted program does. A program without a bound has `u64::MAX` as its bound.
#[derive(Clone, Copy)]
pub struct Caps {
    /// Tasks that are taken.
    pub tasks: u64,
    /// Instructions that are executed.
    pub instructions: u64,
    /// Data made by NEW.
    pub data: u64,
    /// Bytes of the texts of data, rules and tasks at any time, beyond those of the inputs.
    pub bytes: u64,
    /// Instructions of one task.
    pub budget: u64,
    /// Members and values of maps that the store holds at any time, beyond those of the inputs.
    pub members: u64,
    /// Rules made by RULE.
    pub rules: u64,
}

impl Caps {
    /// Caps that admit every program.
    pub const NONE: Caps = Caps {
        tasks: u64::MAX,
        instructions: u64::MAX,
        data: u64::MAX,
        bytes: u64::MAX,
        budget: u64::MAX,
        members: u64::MAX,
        rules: u64::MAX,
    };
}
