//! The meanings of names, and which of them an operand requires.

ghost use Rattle.std.specs.Prelude.{◌≡◌};
ghost use Rattle.tw_symbols.specs.Meanings.{is_bank, is_origin};

/// A bank of registers.
#[derive(Clone, Copy, Debug, PartialEq, Eq)]
pub enum Bank {
    Value,
    Right,
}

/// Returns whether two banks of named registers are the same.
pub fn is_bank(bank: Bank, other: Bank) -> bool
    ensures { result ≡ is_bank bank other }
{
    match bank {
        Bank::Value => matches!(other, Bank::Value),
        Bank::Right => matches!(other, Bank::Right),
    }
}

/// The way in which a register got a name.
#[derive(Clone, Copy, Debug, PartialEq, Eq)]
pub enum Origin {
    /// A head or a line `regs` lists it, or an instruction fills it.
    Listed,
    /// A line `let` names it; other names may mean it too.
    Chosen,
}

/// Returns whether two origins are the same.
pub fn is_origin(origin: Origin, other: Origin) -> bool
    ensures { result ≡ is_origin origin other }
{
    match origin {
        Origin::Listed => matches!(other, Origin::Listed),
        Origin::Chosen => matches!(other, Origin::Chosen),
    }
}

/// The meaning of a name.
#[derive(Clone, Copy, Debug, PartialEq, Eq)]
pub enum Binding {
    Constant(i64),
    Register(Bank, usize, Origin),
    Procedure(usize),
}

/// The kind of operand that is required in a word's place.
#[derive(Clone, Copy, Debug, PartialEq, Eq)]
pub enum Expected {
    /// A value register that the instruction fills.
    Value,
    /// A value register that it reads. A number or a text will do: a hidden register holds it.
    Read,
    Right,
    /// A value register, by its number alone.
    ValueArgument,
    /// A right register, by its number alone.
    RightArgument,
    Number,
    Procedure,
    /// Nothing that can have a name: a text, a type, a skip.
    Nothing,
}

/// The kind of a list of registers.
#[derive(Clone, Copy, Debug, PartialEq, Eq)]
pub enum Listed {
    /// The parameters of a procedure.
    Parameters,
    /// A procedure's value registers.
    Registers,
}
