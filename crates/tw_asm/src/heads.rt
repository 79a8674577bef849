//! Parameters of a procedure, read from the last word on.

ghost use Rattle.std.specs.Prelude.{◌≡◌, IfOk, map, reverse};
ghost use Rattle.tw_lexer.specs.Words.{Bare};
ghost use Rattle.tw_lexer.specs.Seen.{seen as seen_word};
ghost use Rattle.tw_asm.specs.reading.Lines.{begins, broken, ended, ends, few, params_with, kind_in, param_of, params_from, taken, under, with_type};
ghost use Rattle.tw_lexer.specs.Digits.{as_is};
ghost use Rattle.tw_asm.specs.reading.Operands.{container_in, is_sum, map_in, mode_in, scalar_in};
ghost use Rattle.tw_asm.specs.reading.Heads.{seen_params};

use crate::gathering::{Begun, contained, few, mapped, put_first, scalar_type, sums_of};
use crate::operands::{container_of, is_sum, map_of, mode_of};
use std::alloc::{AllocError, Global};
use tw_code::{Procedure, Version};
use tw_lexer::{TokenError, Word};
use tw_types::{DataType, Items, Kind, Mode, Param};

/// The parameters so far, from the last one on, and the type whose mode comes next.
#[derive(Drop)]
struct Params {
    whole: Result<Vec<Param>, TokenError>,
    begun: Begun,
}

/// Makes parameters that are in error, whatever follows.
fn broken() -> Params
    ensures { seen_params result ≡ broken }
{
    Params {
        whole: Err(TokenError::Form),
        begun: Begun::Nothing,
    }
}

/// Continues with a type, or is broken without one.
fn with_type(whole: Result<Vec<Param>, TokenError>, ty: Result<DataType, TokenError>) -> Params
    ensures { seen_params result ≡ with_type (as_is (λ v. reverse v.items) whole) ty }
{
    match ty {
        Ok(ty) => Params {
            whole,
            begun: Begun::Type(Ok(ty)),
        },
        Err(_) => broken(),
    }
}

/// Begins a type with its last word.
fn begins(whole: Result<Vec<Param>, TokenError>, word: &Word<'_>) -> Params
    ensures { seen_params result ≡ begins (as_is (λ v. reverse v.items) whole) (is_sum (seen_word word.now)) (scalar_in (seen_word word.now)) }
{
    if is_sum(word) {
        Params {
            whole,
            begun: Begun::Sum,
        }
    } else {
        with_type(whole, scalar_type(word))
    }
}

/// Returns the type, or `Form` if it is a container or a map and the mode is `val`.
fn under(mode: Mode, ty: Result<DataType, TokenError>) -> Result<DataType, TokenError>
    ensures { result ≡ under mode ty }
{
    match mode {
        Mode::Val => match ty {
            Ok(ty) if ty.is_scalar() => Ok(ty),
            _ => Err(TokenError::Form),
        },
        Mode::Closed | Mode::Ref | Mode::Write => ty,
    }
}

/// Makes a parameter of a mode and a type, or returns the error of `under`.
fn param_of(mode: Mode, ty: Result<DataType, TokenError>) -> Result<Param, TokenError>
    ensures { result ≡ as_is (param_of mode) (under mode ty) }
{
    match under(mode, ty) {
        Ok(ty) => Ok(Param { mode, ty }),
        Err(flaw) => Err(flaw),
    }
}

/// Ends a parameter with the mode before its type.
fn ending(
    whole: Result<Vec<Param>, TokenError>,
    ty: Result<DataType, TokenError>,
    word: &Word<'_>,
) -> Result<Params, AllocError>
    ensures { IfOk result (λ params. seen_params params ≡ ends (as_is (λ v. reverse v.items) whole) ty (mode_in (seen_word word.now))) }
{
    match mode_of(word) {
        Ok(mode) => Ok(Params {
            whole: put_first(param_of(mode, ty), whole)?,
            begun: Begun::Nothing,
        }),
        Err(_) => Ok(broken()),
    }
}

/// Reads a word before a type: a container, a map or a mode.
fn gone_on(
    version: Version,
    whole: Result<Vec<Param>, TokenError>,
    ty: Result<DataType, TokenError>,
    word: &Word<'_>,
) -> Result<Params, AllocError>
    ensures { IfOk result (λ params. seen_params params ≡ params_with (as_is (λ v. reverse v.items) whole) ty (container_in version (seen_word word.now)) (map_in version (seen_word word.now)) (mode_in (seen_word word.now))) }
{
    match container_of(version, word) {
        Ok(by) => Ok(Params {
            whole,
            begun: Begun::Type(contained(Ok(by), ty)),
        }),
        Err(_) => match map_of(version, word) {
            Ok(by) => Ok(with_type(whole, mapped(by, ty))),
            Err(_) => ending(whole, ty, word),
        },
    }
}

/// Reads the word before the others.
fn taken(version: Version, params: Params, word: &Word<'_>) -> Result<Params, AllocError>
    ensures { IfOk result (λ after. seen_params after ≡ taken version (seen_word word.now) (seen_params params)) }
{
    let Params { whole, begun } = params;
    match begun {
        Begun::Nothing => Ok(begins(whole, word)),
        Begun::Sum => Ok(with_type(whole, sums_of(version, word))),
        Begun::Type(ty) => gone_on(version, whole, ty, word),
    }
}

/// Returns the parameters in the order of the text, or `Form` if a type has no mode.
fn ended(params: Params) -> Result<Vec<Param>, TokenError>
    ensures { as_is (λ v. v.items) result ≡ ended (seen_params params) }
{
    let Params { whole, begun } = params;
    match begun {
        Begun::Nothing => match whole {
            Ok(params) => {
                let mut params = params;
                params.reverse();
                Ok(params)
            }
            Err(flaw) => Err(flaw),
        },
        _ => Err(TokenError::Form),
    }
}

/// Reads parameters, however many there are.
fn param_list(
    alloc: Global,
    version: Version,
    words: &[Word<'_>],
) -> Result<Result<Vec<Param>, TokenError>, AllocError>
    ensures { IfOk result (λ read. as_is (λ v. v.items) read ≡ ended (params_from version (map seen_word words.now))) }
{
    let mut params = Params {
        whole: Ok(Vec::new(alloc)),
        begun: Begun::Nothing,
    };
    for index in (0..words.len()).rev() {
        params = taken(version, params, &words[index])?;
    }
    Ok(ended(params))
}

/// Reads the parameters of a procedure. Returns `Limit` if there are more than 8.
pub fn params_of(
    alloc: Global,
    version: Version,
    words: &[Word<'_>],
) -> Result<Result<Items<Param>, TokenError>, AllocError>
    ensures { IfOk result (λ read. read ≡ few 8 (ended (params_from version (map seen_word words.now)))) }
{
    let params = param_list(alloc, version, words)?;
    Ok(few(Procedure::MAX_PARAMS, params))
}

/// Reads the kind of a procedure from its word.
fn kind_in(text: &[u8]) -> Result<Kind, TokenError>
    ensures { result ≡ kind_in (Bare text.now) }
{
    if text == b"control".as_slice() {
        Ok(Kind::Control)
    } else if text == b"leaf".as_slice() {
        Ok(Kind::Leaf)
    } else {
        Err(TokenError::Form)
    }
}

/// Reads the kind of a procedure, `control` or `leaf`.
pub fn kind_of(word: &Word<'_>) -> Result<Kind, TokenError>
    ensures { result ≡ kind_in (seen_word word.now) }
{
    match word {
        Word::Bare(text) => kind_in(text),
        Word::Quoted(_) => Err(TokenError::Form),
    }
}
