//! The words that encode a program's inputs.

ghost use Rattle.std.specs.Prelude.{◌≡◌, ◌≢◌, ◌++◌, ℕ, List, IfOk, IsUtf8, MatchOption, codes};
ghost use Rattle.tw_types.specs.declared.input.Input.{Input as GivenInput};
ghost use Rattle.tw_inputs.specs.InputWords.{EncodesInput};

use crate::lists::members;
use crate::parts::int_of;
use std::alloc::{AllocError, Global};
use tw_lexer::after;
use tw_types::{Input, InputText, Items};

/// Copies a text as it is.
fn text_of(alloc: Global, bytes: &[u8]) -> Result<InputText, AllocError>
    requires { IsUtf8 bytes.now }
    ensures { IfOk result (λ text. text ≡ bytes.now) }
{
    match String::from_utf8(bytes.to_vec(alloc)?) {
        Ok(text) => Ok(InputText::from(text)),
        Err(_) => unreachable!(),
    }
}

/// Returns the container that a word encodes, if it encodes one. The word begins with neither `int:` nor `text:`.
fn container_of(alloc: Global, word: &[u8]) -> Result<Option<Input>, AllocError>
    requires int { (rest : List ℕ) → word.now ≢ codes "int:" ++ rest }
    requires text { (rest : List ℕ) → word.now ≢ codes "text:" ++ rest }
    requires utf8 { IsUtf8 word.now }
    ensures { IfOk result (λ read. MatchOption read
        ((given : GivenInput) → EncodesInput given word.now → ⊥)
        (λ given. EncodesInput given word.now)) }
{
    if let Some(list) = after(b"ints:", word) {
        return match members(alloc, list)? {
            Some(members) => Ok(Some(Input::Ints(Items::from(members)))),
            None => Ok(None),
        };
    }
    if let Some(list) = after(b"texts:", word) {
        return match members(alloc, list)? {
            Some(members) => Ok(Some(Input::Texts(Items::from(members)))),
            None => Ok(None),
        };
    }
    if let Some(list) = after(b"tints:", word) {
        return match members(alloc, list)? {
            Some(members) => Ok(Some(Input::IntsByText(Items::from(members)))),
            None => Ok(None),
        };
    }
    if let Some(list) = after(b"ttexts:", word) {
        return match members(alloc, list)? {
            Some(members) => Ok(Some(Input::TextsByText(Items::from(members)))),
            None => Ok(None),
        };
    }
    Ok(None)
}

/// Returns the input that a word encodes, if it encodes one. The error is that an allocation fails.
///
/// A word is `int:`, `text:`, `ints:`, `texts:`, `tints:` or `ttexts:`, and its value. This function doesn't check that a container's subscripts
/// rise, nor how long a text or container is. They are checked when the program is opened.
pub fn input_of(alloc: Global, word: &str) -> Result<Option<Input>, AllocError>
    ensures { IfOk result (λ read. MatchOption read
        ((given : GivenInput) → EncodesInput given word.now → ⊥)
        (λ given. EncodesInput given word.now)) }
{
    let bytes = word.as_bytes();
    if let Some(digits) = after(b"int:", bytes) {
        return match int_of(digits) {
            Some(n) => Ok(Some(Input::Int(n))),
            None => Ok(None),
        };
    }
    if let Some(text) = after(b"text:", bytes) {
        return Ok(Some(Input::Text(text_of(alloc, text)?)));
    }
    container_of(alloc, bytes)
}
