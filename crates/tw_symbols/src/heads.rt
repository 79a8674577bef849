//! The words of a procedure's head.

ghost use Rattle.std.specs.Prelude.{◌≡◌, ◌∷◌, [], IfOk, MatchOption, filter, take};
ghost use Rattle.std.specs.List.{filter_map};
ghost use Rattle.std.specs.Option.{option_map};
ghost use Rattle.tw_symbols.specs.LineNames.{bank_of_mode, is_unnamed, parameters, procedure_name, value_types};
ghost use Rattle.tw_symbols.specs.Seen.{now, texts};

use crate::meaning::Bank;
use std::alloc::{AllocError, Global};
use tw_lexer::before_colon;

/// Returns the bank of a parameter whose mode is this word of a head.
pub fn bank_of_mode(word: &[u8]) -> Option<Bank>
    ensures { result ≡ bank_of_mode word.now }
{
    if word == b"val".as_slice() {
        Some(Bank::Value)
    } else if word == b"closed".as_slice()
        || word == b"ref".as_slice()
        || word == b"write".as_slice()
    {
        Some(Bank::Right)
    } else {
        None
    }
}

/// Returns the banks of the parameters whose modes are among these words of a head.
pub fn banks_of_modes(alloc: Global, words: &[&[u8]]) -> Result<Vec<Bank>, AllocError>
    ensures { IfOk result (λ banks. banks.items ≡ filter_map bank_of_mode (texts words.now)) }
{
    let mut banks = Vec::new(alloc);
    for word in words {
        if let Some(bank) = bank_of_mode(word) {
            banks.push(bank)?;
        }
    }
    Ok(banks)
}

/// Returns the word after the kind, unless a parameter begins with it.
pub fn procedure_name<'a>(words: &[&'a [u8]]) -> Option<&'a [u8]>
    ensures { option_map now result ≡ procedure_name (texts words.now) }
{
    match words {
        [_, word, ..] => {
            if bank_of_mode(word).is_some() || before_colon(word).is_some() {
                None
            } else {
                Some(*word)
            }
        }
        _ => None,
    }
}

/// Returns the words after the kind and the name.
pub fn parameters<'b, 'a>(words: &'b [&'a [u8]]) -> &'b [&'a [u8]]
    ensures { texts result.now ≡ parameters (texts words.now) }
{
    let named = procedure_name(words).is_some();
    match words {
        [_, _, rest @ ..] if named => rest,
        [_, rest @ ..] => rest,
        [] => words,
    }
}

/// Returns the first word, unless it is a name and `:`.
fn first_unnamed<'a>(words: &[&'a [u8]]) -> Option<&'a [u8]>
    ensures { MatchOption result (filter is_unnamed (take 1 (texts words.now)) ≡ []) (λ word. filter is_unnamed (take 1 (texts words.now)) ≡ word.now ∷ []) }
{
    match words {
        [word, ..] if before_colon(word).is_none() => Some(*word),
        _ => None,
    }
}

/// Returns the types of a head's `val` parameters: the word after each `val`, except a name and `:`.
pub fn value_types<'a>(alloc: Global, words: &[&'a [u8]]) -> Result<Vec<&'a [u8]>, AllocError>
    ensures { IfOk result (λ types. texts types.items ≡ value_types (texts words.now)) }
{
    let mut types = Vec::new(alloc);
    let mut rest = words;
    while let [word, others @ ..] = rest {
        if *word == b"val".as_slice() {
            if let Some(ty) = first_unnamed(others) {
                types.push(ty)?;
            }
        }
        rest = others;
    }
    Ok(types)
}
