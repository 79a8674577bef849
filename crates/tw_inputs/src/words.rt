//! Reads the words that encode a program's inputs, one word each.

ghost use Rattle.std.specs.Prelude.{◌≡◌, map, IfErr, IfOk};
ghost use Rattle.tw_inputs.specs.InputWords.{AreEncoded};
ghost use Rattle.tw_inputs.specs.WordErrors.{IsInputReason};
ghost use Rattle.tw_inputs.specs.declared.words.WordError.TheVariants.{NoMemory};

use crate::word::input_of;
use crate::word_diagnostics::refused_word;
use std::alloc::{AllocError, AllocFailed, Global};
use tw_types::{Input, Items};

/// The reason why words encode no inputs.
#[derive(Drop)]
pub enum WordError {
    /// The word with this number is the first that encodes no input. Words count from 1. The line says why.
    Refused(usize, Vec<u8>),
    /// An allocation failed.
    NoMemory,
}

impl From<AllocError> for WordError {
    ghost from_gives = { λ _ e. e ≡ NoMemory };

    fn from(_error: AllocError) -> WordError {
        WordError::NoMemory
    }
}

impl<T: Drop> From<AllocFailed<T>> for WordError {
    ghost from_gives = { λ _ e. e ≡ NoMemory };

    fn from(_failed: AllocFailed<T>) -> WordError {
        WordError::NoMemory
    }
}

/// Returns the inputs that words encode, one each. The first word that encodes none is refused.
pub fn inputs_of(alloc: Global, words: &[&str]) -> Result<Items<Input>, WordError>
    ensures spelled { IfOk result (λ inputs. AreEncoded inputs (map (λ word. word.now) words.now)) }
    ensures refused { IfErr result (IsInputReason (map (λ word. word.now) words.now)) }
{
    let mut inputs = Vec::new(alloc);
    for (index, word) in words.iter().enumerate() {
        match input_of(alloc, word)? {
            Some(input) => inputs.push(input)?,
            None => return Err(refused_word(alloc, index + 1, word)),
        }
    }
    Ok(Items::from(inputs))
}
