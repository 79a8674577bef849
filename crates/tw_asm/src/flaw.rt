//! Errors of words: what is wrong, at which word, and what was due there.

ghost use Rattle.std.specs.Prelude.{◌≡◌};
ghost use Rattle.tw_lexer.specs.declared.numbers.TokenError.TheVariants as wrong;
ghost use Rattle.tw_asm.specs.reading.Operands.{both};

use std::marker::Model;
use tw_code::{Form, Version};
use tw_lexer::TokenError;

/// Something that was due at the word of an error, or that a text needs or has too many of.
#[derive(Clone, Copy, Debug)]
pub enum Due {
    /// The version, or the first head.
    Start,
    Head,
    /// `regs`.
    Registers,
    /// A head, a label or an instruction of this version.
    Body(Version),
    /// An operand of this form.
    Operand(Form),
    /// The number of a version.
    Version,
    /// The kind of a procedure.
    Kind,
    /// A parameter, by its mode.
    Param,
    /// The rest of a right parameter's type.
    ParamType,
    /// The type of a map's values.
    Values,
    /// The type of a parameter that is a value.
    ParamScalar,
    /// The type of a value register.
    Register,
    /// The end of the line.
    End,
    /// A label of the procedure.
    Label,
    /// A label that the procedure doesn't have yet.
    NewLabel,
    /// A label after the line.
    LaterLabel,
    /// At most 64 bytes of a name.
    Name,
    /// An instruction, before the procedure ends.
    Instruction,
    /// No more than 64 procedures.
    Procedures,
    /// No more than 4,096 instructions.
    Instructions,
    /// A procedure, before the text ends.
    Procedure,
    Nothing,
}

/// The error of a line's words, the number of its word, from 1, and what was due there.
///
/// Contracts see the error alone.
#[derive(Drop)]
pub struct Flaw {
    pub error: TokenError,
    pub word: usize,
    pub due: Due,
}

impl Model for Flaw {
    ghost use Rattle.tw_lexer.specs.declared.numbers.TokenError.{TokenError as Told};

    ghost Value = { Told };

    ghost view = { λ flaw. flaw.error };
}

impl Flaw {
    /// Makes the error of a word that has another form, or is missing.
    pub fn form(word: usize, due: Due) -> Flaw
        ensures { result ≡ wrong.Form }
    {
        Flaw {
            error: TokenError::Form,
            word,
            due,
        }
    }
}

/// Adds to the error of a word its number and what was due there.
pub fn at<A: Drop>(read: Result<A, TokenError>, word: usize, due: Due) -> Result<A, Flaw>
    ensures { result ≡ read }
{
    match read {
        Ok(found) => Ok(found),
        Err(error) => Err(Flaw { error, word, due }),
    }
}

/// Pairs two operands. If both have an error, a wrong form is reported before a limit, and else the earlier one.
pub fn both_at<A: Drop, B: Drop>(
    first: Result<A, Flaw>,
    second: Result<B, Flaw>,
) -> Result<(A, B), Flaw>
    ensures { result ≡ both first second }
{
    match first {
        Ok(first) => match second {
            Ok(second) => Ok((first, second)),
            Err(late) => Err(late),
        },
        Err(early) => match early.error {
            TokenError::Form => Err(early),
            TokenError::Limit => match second {
                Ok(_) => Err(early),
                Err(late) => match late.error {
                    TokenError::Form => Err(late),
                    TokenError::Limit => Err(early),
                },
            },
        },
    }
}
