//! The forms of operands.

/// The form of one operand of an instruction.
#[derive(Clone, Copy, Debug, PartialEq, Eq)]
pub enum Form {
    /// A value register.
    Value,
    /// A right register.
    Right,
    /// An integer.
    Number,
    /// The number of iterations of a loop.
    Iterations,
    /// A text.
    Literal,
    /// The type of a datum.
    TypeOf,
    /// The number of instructions to skip.
    Skip,
    /// The number of a procedure.
    Callee,
    /// The number of an actor, or any.
    Target,
    /// Register numbers; the mode of each parameter says in which bank.
    Args,
}
