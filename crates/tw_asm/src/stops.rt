//! Words at which a line stops that was read from its last word on, or as a whole.

ghost use Rattle.std.specs.Prelude.{◌≡◌};
ghost use Rattle.tw_lexer.specs.declared.numbers.TokenError.TheVariants as wrong;

use crate::flaw::{Due, Flaw};
use crate::operands::{
    byte_of, container_of, goal_of, is_sum, iterations_of, map_of, mode_of, number_of, right_of,
    scalar_of, target_of, value_of,
};
use tw_code::{Form, Procedure, Version};
use tw_lexer::{TokenError, Word};
use tw_types::Mode;

/// Returns whether a word may be an operand of this form, whatever its limits.
fn has_form(form: Form, word: &Word<'_>) -> bool {
    let error = match form {
        Form::Value => value_of(word).err(),
        Form::Right => right_of(word).err(),
        Form::Number => number_of(word).err(),
        Form::Iterations => iterations_of(word).err(),
        Form::Callee => byte_of(0, 255, word).err(),
        Form::Target => target_of(word).err(),
        Form::Skip => goal_of(word).err(),
        Form::Literal => return matches!(word, Word::Quoted(_)),
        Form::TypeOf | Form::Args => return true,
    };
    !matches!(error, Some(TokenError::Form))
}

/// Returns where a line with too few or too many operands stops: at the first word of another form, or after the last that may be there.
pub fn early(forms: &[Form], words: &[Word<'_>], first: usize) -> Flaw
    ensures { result ≡ wrong.Form }
{
    let mut number = first;
    for (form, word) in forms.iter().zip(words) {
        if !has_form(*form, word) {
            return Flaw::form(number, Due::Operand(*form));
        }
        number = number.saturating_add(1);
    }
    match forms.get(words.len()) {
        Some(form) => Flaw::form(number, Due::Operand(*form)),
        None => Flaw::form(number, Due::End),
    }
}

// ---- types and parameters

/// Returns what is due after a word of a type, if the word may be there; `after` is due after the whole type.
fn after_type(version: Version, word: &Word<'_>, due: Due, after: Due) -> Option<Due> {
    if scalar_of(word).is_ok() {
        Some(after)
    } else if map_of(version, word).is_ok() {
        Some(Due::Values)
    } else if container_of(version, word).is_ok() {
        Some(due)
    } else {
        None
    }
}

/// Returns what is due after a word, if the word may be where this is due.
fn next_due(version: Version, word: &Word<'_>, due: Due, after: Due) -> Option<Due> {
    match due {
        Due::Param => match mode_of(word) {
            Ok(Mode::Val) => Some(Due::ParamScalar),
            Ok(_) => Some(Due::ParamType),
            Err(_) => None,
        },
        Due::ParamScalar => scalar_of(word).is_ok().then_some(after),
        Due::Values => (scalar_of(word).is_ok() || is_sum(word)).then_some(after),
        Due::ParamType | Due::Operand(_) => after_type(version, word, due, after),
        _ => None,
    }
}

/// Returns whether a word is that of a container, where a type is due.
fn is_around(version: Version, word: &Word<'_>, due: Due) -> bool {
    matches!(due, Due::ParamType | Due::Operand(_)) && container_of(version, word).is_ok()
}

/// Returns where a type, or parameters, stop that have this error: at the first wrong word, or past 3 containers or 8 parameters. `begin` is due at
/// the first word, and `after` after a type.
pub fn stop_of(
    version: Version,
    words: &[Word<'_>],
    error: TokenError,
    first: usize,
    begin: Due,
    after: Due,
) -> Flaw
    ensures { result ≡ error }
{
    let mut due = begin;
    let (mut params, mut depth) = (0u8, 0usize);
    let mut number = first;
    for word in words {
        let Some(next) = next_due(version, word, due, after) else {
            return Flaw {
                error,
                word: number,
                due,
            };
        };
        depth = if is_around(version, word, due) {
            depth.saturating_add(1)
        } else {
            0
        };
        if matches!(due, Due::Param) {
            params = params.saturating_add(1);
        }
        if matches!(error, TokenError::Limit) && (depth > 3 || params > Procedure::MAX_PARAMS) {
            return Flaw {
                error,
                word: number,
                due,
            };
        }
        due = next;
        number = number.saturating_add(1);
    }
    Flaw {
        error,
        word: number,
        due,
    }
}

// ---- lists

/// Returns where a list stops that has this error, and before whose first wrong word are this many: at that word, or past `most` of them.
fn list_stop(before: usize, error: TokenError, first: usize, most: u8, due: Due) -> Flaw
    ensures { result ≡ error }
{
    let before = match error {
        TokenError::Form => before,
        TokenError::Limit => before.min(usize::from(most)),
    };
    Flaw {
        error,
        word: first.saturating_add(before),
        due,
    }
}

/// Returns where arguments stop that have this error.
pub fn args_stop(words: &[Word<'_>], error: TokenError, first: usize) -> Flaw
    ensures { result ≡ error }
{
    let mut before = 0usize;
    for word in words {
        if byte_of(0, Procedure::LAST_REGISTER, word).err() == Some(error) {
            break;
        }
        before = before.saturating_add(1);
    }
    list_stop(
        before,
        error,
        first,
        Procedure::MAX_PARAMS,
        Due::Operand(Form::Args),
    )
}

/// Returns where the types of registers stop that have this error.
pub fn registers_stop(words: &[Word<'_>], error: TokenError, first: usize) -> Flaw
    ensures { result ≡ error }
{
    let mut before = 0usize;
    for word in words {
        if scalar_of(word).err() == Some(error) {
            break;
        }
        before = before.saturating_add(1);
    }
    list_stop(
        before,
        error,
        first,
        Procedure::VALUE_REGISTERS,
        Due::Register,
    )
}
