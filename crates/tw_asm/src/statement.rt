//! Statements: the content of a line of assembly text.

use tw_code::{Instr, Version};
use tw_types::{Items, Kind, Param, Scalar};

/// An instruction, and the label that it names as its goal, if any; then its skip is 0.
#[derive(Drop)]
pub struct Unlinked<'a> {
    pub instr: Instr,
    pub goal: Option<&'a [u8]>,
    /// The number of the line's last word, which the goal is.
    pub last: usize,
}

/// The statement of a line.
#[derive(Drop)]
pub enum Statement<'a> {
    /// The version of the language.
    Version(Version),
    /// The head of a procedure.
    Head { kind: Kind, params: Items<Param> },
    /// The types of the procedure's value registers.
    Registers(Items<Scalar>),
    /// A label with this name.
    Label(&'a [u8]),
    Code(Unlinked<'a>),
}

/// The kind of a statement, as its first word shows it.
#[derive(Clone, Copy, PartialEq, Eq)]
pub enum First {
    /// `version`.
    Version,
    /// `proc`.
    Head,
    /// `regs`.
    Registers,
    /// A label, or an instruction's name.
    Body,
}
