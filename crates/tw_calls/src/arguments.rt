//! The arguments of a session, which are passed as one text.

ghost use Rattle.std.specs.Prelude.{◌≡◌, ◌==◌, ◌<◌, IfOk, map, string_bytes};
ghost use Rattle.std.specs.Io.BufRead.{strip_last};
ghost use Rattle.std.specs.List.{slice_split};
ghost use Rattle.tw_calls.specs.SessionAnswers.{arguments_in};

use std::alloc::{AllocError, Global};

/// Returns the text without the ending at its end, if it has one.
fn without_last_end(text: &str, ending: char) -> &str
    requires { ending < 128 }
    ensures { result.now ≡ strip_last ending text.now }
{
    match text.strip_suffix(ending) {
        Some(front) => front,
        None => text,
    }
}

/// Splits a text at its endings, and copies the parts.
fn parts_of(alloc: Global, text: &str, ending: char) -> Result<Vec<String>, AllocError>
    requires { ending < 128 }
    ensures { IfOk result (λ parts. map string_bytes parts.items ≡ slice_split (λ b. b == ending) text.now) }
{
    let mut parts = Vec::new(alloc);
    for part in text.split(ending) {
        parts.push(part.to_string(alloc)?)?;
    }
    Ok(parts)
}

/// Copies the arguments of a text. Each ends at this ASCII character, and only there.
pub fn arguments_of(alloc: Global, text: &str, ending: char) -> Result<Vec<String>, AllocError>
    requires { ending < 128 }
    ensures { IfOk result (λ words. map string_bytes words.items ≡ arguments_in ending text.now) }
{
    if text.is_empty() {
        return Ok(Vec::new(alloc));
    }
    parts_of(alloc, without_last_end(text, ending), ending)
}
