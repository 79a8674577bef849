//! Reads subscripts and values of members, from words and from JSON.

ghost use Rattle.std.specs.Prelude.{◌≡◌, ℕ, ℤ, List, Option, Some, IfOk, IsUtf8, MatchOption};
ghost use Rattle.std.specs.Cmp.{IsTotalOrder};
ghost use Rattle.std.specs.Cmp.Lexicographic.{slice_cmp};
ghost use Rattle.std.specs.Ordering.{int_cmp, nat_cmp};
ghost use Rattle.std.specs.declared.cmp.Ordering.{Ordering as SubscriptOrdering};
ghost use Rattle.std.proofs.lemmas.Cmp.{int_cmp_total, nat_list_cmp_total};
ghost use Rattle.json.specs.Find.{as_str};
ghost use Rattle.json.specs.Json.{Json as JsonValue};
ghost use Rattle.json.specs.Value.{value_view};
ghost use Rattle.tw_lexer.specs.Quoted.{EncodesQuoted};
ghost use Rattle.tw_inputs.specs.InputWords.{EncodesInt};
ghost use Rattle.tw_inputs.specs.JsonInputs.{int_in, int_json};
ghost use Rattle.tw_inputs.specs.Lists.{HasNoFirst, IsCut, IsFirst, IsMark};

use json::Value as Json;
use std::alloc::{AllocError, Global};
use std::cmp::Ordering;
use tw_lexer::{number, quoted_text};
use tw_types::InputText;

/// A subscript or a value of a member: a text before or after its `=` in a word, a key or a value in JSON.
pub trait Part: Drop {
    ghost Spells: { Self → List ℕ → Type 0 };

    ghost of_key: { List ℕ → Option Self };

    ghost of_value: { JsonValue → Option Self };

    ghost order: { Self → Self → SubscriptOrdering };

    ghost total: { IsTotalOrder order };

    /// Returns the value at the start that ends at this marker, and the rest. Returns none if there is no such value.
    fn first(alloc: Global, mark: u8, bytes: &[u8]) -> Result<Option<(Self, &[u8])>, AllocError>
        requires mark { IsMark mark }
        requires utf8 { IsUtf8 bytes.now }
        ensures { IfOk result (λ read. MatchOption read
            (HasNoFirst mark Spells bytes.now)
            (λ found. IsFirst mark Spells bytes.now found.0 found.1.now)) };

    /// Returns the subscript that a key of an object is.
    fn from_key(alloc: Global, key: &str) -> Result<Option<Self>, AllocError>
        ensures { IfOk result (λ part. part ≡ of_key key.now) };

    /// Returns the value that a JSON value is.
    fn from_value(alloc: Global, value: &Json<'_>) -> Result<Option<Self>, AllocError>
        ensures { IfOk result (λ part. part ≡ of_value (value_view value.now)) };

    /// Compares subscripts in the order of a container's members.
    fn compare(&self, other: &Self) -> Ordering
        ensures { result ≡ order self.now other.now };
}

/// Returns the integer of 64 bits that a text encodes in decimal digits, if it encodes one.
pub fn int_of(text: &[u8]) -> Option<i64>
    ensures is { result ≡ int_in text.now }
    ensures encoded { MatchOption result ((n : ℤ) → EncodesInt n text.now → ⊥) (λ n. EncodesInt n text.now) }
{
    match number(text) {
        Ok(n) => Some(n),
        Err(_) => None,
    }
}

/// Copies a text.
pub fn text_of(alloc: Global, text: &str) -> Result<InputText, AllocError>
    ensures { IfOk result (λ copy. copy ≡ text.now) }
{
    Ok(InputText::from(String::from_str(alloc, text)?))
}

/// Splits the bytes before the first one that equals this byte. Without such a byte the second part is empty.
fn cut(byte: u8, bytes: &[u8]) -> (&[u8], &[u8])
    ensures { IsCut byte bytes.now result.0.now result.1.now }
{
    for (index, other) in bytes.iter().enumerate() {
        if *other == byte {
            return bytes.split_at(index);
        }
    }
    bytes.split_at(bytes.len())
}

impl Part for i64 {
    ghost Spells = { EncodesInt };

    ghost of_key = { int_in };

    ghost of_value = { int_json };

    ghost order = { int_cmp };

    ghost total = { int_cmp_total };

    fn first(_alloc: Global, mark: u8, bytes: &[u8]) -> Result<Option<(i64, &[u8])>, AllocError> {
        let (digits, rest) = cut(mark, bytes);
        match int_of(digits) {
            Some(number) => Ok(Some((number, rest))),
            None => Ok(None),
        }
    }

    fn from_key(_alloc: Global, key: &str) -> Result<Option<i64>, AllocError> {
        Ok(int_of(key.as_bytes()))
    }

    fn from_value(_alloc: Global, value: &Json<'_>) -> Result<Option<i64>, AllocError> {
        match value.as_number() {
            Some(digits) => Ok(int_of(digits.as_bytes())),
            None => Ok(None),
        }
    }

    fn compare(&self, other: &i64) -> Ordering {
        self.cmp(other)
    }
}

impl Part for InputText {
    ghost Spells = { EncodesQuoted };

    ghost of_key = { Some };

    ghost of_value = { as_str };

    ghost order = { slice_cmp nat_cmp };

    ghost total = { nat_list_cmp_total };

    fn first(
        alloc: Global,
        _mark: u8,
        bytes: &[u8],
    ) -> Result<Option<(InputText, &[u8])>, AllocError> {
        match quoted_text(alloc, bytes)? {
            Some((text, rest)) => Ok(Some((InputText::from(text), rest))),
            None => Ok(None),
        }
    }

    fn from_key(alloc: Global, key: &str) -> Result<Option<InputText>, AllocError> {
        let text = text_of(alloc, key)?;
        Ok(Some(text))
    }

    fn from_value(alloc: Global, value: &Json<'_>) -> Result<Option<InputText>, AllocError> {
        match value.as_str() {
            Some(text) => {
                let text = text_of(alloc, text)?;
                Ok(Some(text))
            }
            None => Ok(None),
        }
    }

    fn compare(&self, other: &InputText) -> Ordering {
        self.as_str().cmp(other.as_str())
    }
}
