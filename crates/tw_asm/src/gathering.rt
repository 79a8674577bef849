//! Lists of items, and types.

ghost use Rattle.std.specs.Prelude.{◌≡◌, IfOk, Ok, map, reverse};
ghost use Rattle.tw_lexer.specs.Seen.{seen as seen_word};
ghost use Rattle.tw_asm.specs.reading.Lines.{around, before, contained, each, few, joined, mapped, put_first, type_in, typed, whole_type};
ghost use Rattle.tw_lexer.specs.Digits.{as_is};
ghost use Rattle.tw_asm.specs.reading.Operands.{container_in, map_in, natural_in, scalar_in};
ghost use Rattle.tw_types.specs.DataType.{scalar_type, sums_of};

use crate::operands::{both_of, byte_of, container_of, is_sum, map_of, scalar_of};
use std::alloc::{AllocError, Global};
use tw_code::{Procedure, Version};
use tw_lexer::{TokenError, Word};
use tw_types::{DataType, Items, Scalar};

/// Appends an item, if the items and the item could be read.
pub fn joined<A: Drop>(
    items: Result<Vec<A>, TokenError>,
    item: Result<A, TokenError>,
) -> Result<Result<Vec<A>, TokenError>, AllocError>
    ensures { IfOk result (λ all. as_is (λ v. v.items) all ≡ joined (as_is (λ v. v.items) items) item) }
{
    match both_of(items, item) {
        Ok((items, item)) => {
            let mut items = items;
            items.push(item)?;
            Ok(Ok(items))
        }
        Err(flaw) => Ok(Err(flaw)),
    }
}

/// Inserts an item before the others. The items are in reverse order, the last one first.
pub fn put_first<A: Drop>(
    item: Result<A, TokenError>,
    items: Result<Vec<A>, TokenError>,
) -> Result<Result<Vec<A>, TokenError>, AllocError>
    ensures { IfOk result (λ all. as_is (λ v. reverse v.items) all ≡ put_first item (as_is (λ v. reverse v.items) items)) }
{
    match both_of(item, items) {
        Ok((item, items)) => {
            let mut items = items;
            items.push(item)?;
            Ok(Ok(items))
        }
        Err(flaw) => Ok(Err(flaw)),
    }
}

/// Returns the items, or `Limit` if there are more than `most`.
pub fn few<A: Drop>(most: u8, items: Result<Vec<A>, TokenError>) -> Result<Items<A>, TokenError>
    ensures { result ≡ few most (as_is (λ v. v.items) items) }
{
    match items {
        Ok(items) => {
            if items.len() > usize::from(most) {
                Err(TokenError::Limit)
            } else {
                Ok(Items::from(items))
            }
        }
        Err(flaw) => Err(flaw),
    }
}

/// Reads the registers of arguments, however many there are.
fn arg_list(alloc: Global, words: &[Word<'_>]) -> Result<Result<Vec<u8>, TokenError>, AllocError>
    ensures { IfOk result (λ read. as_is (λ v. v.items) read ≡ each (natural_in 0 15) (map seen_word words.now)) }
{
    let mut args = Ok(Vec::new(alloc));
    for word in words {
        args = joined(args, byte_of(0, Procedure::LAST_REGISTER, word))?;
    }
    Ok(args)
}

/// Reads the register numbers of arguments. Returns `Limit` if there are more than 8.
pub fn args_of(
    alloc: Global,
    words: &[Word<'_>],
) -> Result<Result<Items<u8>, TokenError>, AllocError>
    ensures { IfOk result (λ read. read ≡ few 8 (each (natural_in 0 15) (map seen_word words.now))) }
{
    let args = arg_list(alloc, words)?;
    Ok(few(Procedure::MAX_PARAMS, args))
}

/// Reads the types of value registers, however many there are.
fn scalar_list(
    alloc: Global,
    words: &[Word<'_>],
) -> Result<Result<Vec<Scalar>, TokenError>, AllocError>
    ensures { IfOk result (λ read. as_is (λ v. v.items) read ≡ each scalar_in (map seen_word words.now)) }
{
    let mut scalars = Ok(Vec::new(alloc));
    for word in words {
        scalars = joined(scalars, scalar_of(word))?;
    }
    Ok(scalars)
}

/// Reads the types of registers. Returns `Limit` if there are more than 16.
pub fn scalars_of(
    alloc: Global,
    words: &[Word<'_>],
) -> Result<Result<Items<Scalar>, TokenError>, AllocError>
    ensures { IfOk result (λ read. read ≡ few 16 (each scalar_in (map seen_word words.now))) }
{
    let scalars = scalar_list(alloc, words)?;
    Ok(few(Procedure::VALUE_REGISTERS, scalars))
}

/// The words of a type so far, from the last one on. Before the word `sum` a map's word is due.
#[derive(Drop)]
pub enum Begun {
    Nothing,
    Sum,
    Type(Result<DataType, TokenError>),
}

/// Returns a container around data of type `ty`, whose subscripts have type `by`. Returns `Limit` if that would be more than 3 containers.
fn around(by: Scalar, ty: DataType) -> Result<DataType, TokenError>
    ensures { result ≡ around (Ok (by, ty)) }
{
    match ty.container(by) {
        Some(container) => Ok(container),
        None => Err(TokenError::Limit),
    }
}

/// Like `around`, but its arguments may be errors of reading.
pub fn contained(
    by: Result<Scalar, TokenError>,
    ty: Result<DataType, TokenError>,
) -> Result<DataType, TokenError>
    ensures { result ≡ contained by ty }
{
    match both_of(by, ty) {
        Ok((by, ty)) => around(by, ty),
        Err(flaw) => Err(flaw),
    }
}

/// Reads the type of a scalar.
pub fn scalar_type(word: &Word<'_>) -> Result<DataType, TokenError>
    ensures { result ≡ as_is scalar_type (scalar_in (seen_word word.now)) }
{
    match scalar_of(word) {
        Ok(scalar) => Ok(DataType::from(scalar)),
        Err(flaw) => Err(flaw),
    }
}

/// Returns the type of maps from such subscripts to values of this type, or `Form` if it isn't a scalar.
pub fn mapped(by: Scalar, ty: Result<DataType, TokenError>) -> Result<DataType, TokenError>
    ensures { result ≡ mapped by ty }
{
    match ty {
        Ok(ty) if ty.is_scalar() => Ok(DataType::map(by, ty.scalar())),
        _ => Err(TokenError::Form),
    }
}

/// Reads a map's word before `sum`.
pub fn sums_of(version: Version, word: &Word<'_>) -> Result<DataType, TokenError>
    ensures { result ≡ as_is sums_of (map_in version (seen_word word.now)) }
{
    match map_of(version, word) {
        Ok(by) => Ok(DataType::sums(by)),
        Err(flaw) => Err(flaw),
    }
}

/// Reads the word of a container or a map before a type.
fn before(
    version: Version,
    word: &Word<'_>,
    ty: Result<DataType, TokenError>,
) -> Result<DataType, TokenError>
    ensures { result ≡ before (container_in version (seen_word word.now)) (map_in version (seen_word word.now)) ty }
{
    match container_of(version, word) {
        Ok(by) => contained(Ok(by), ty),
        Err(_) => match map_of(version, word) {
            Ok(by) => mapped(by, ty),
            Err(_) => Err(TokenError::Form),
        },
    }
}

/// Reads the last word of a type, or the word before others of it.
fn typed(version: Version, word: &Word<'_>, begun: Begun) -> Begun
    ensures { result ≡ typed version (seen_word word.now) begun }
{
    match begun {
        Begun::Nothing => {
            if is_sum(word) {
                Begun::Sum
            } else {
                Begun::Type(scalar_type(word))
            }
        }
        Begun::Sum => Begun::Type(sums_of(version, word)),
        Begun::Type(ty) => Begun::Type(before(version, word, ty)),
    }
}

/// Returns the type, or `Form` if words are missing.
fn whole_type(begun: Begun) -> Result<DataType, TokenError>
    ensures { result ≡ whole_type begun }
{
    match begun {
        Begun::Type(ty) => ty,
        _ => Err(TokenError::Form),
    }
}

/// Reads a type: the words of its containers, the outermost first, and then a scalar or a map.
pub fn type_of(version: Version, words: &[Word<'_>]) -> Result<DataType, TokenError>
    ensures { result ≡ type_in version (map seen_word words.now) }
{
    let mut begun = Begun::Nothing;
    for index in (0..words.len()).rev() {
        begun = typed(version, &words[index], begun);
    }
    whole_type(begun)
}
