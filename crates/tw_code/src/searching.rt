//! Parts of texts, and searches in them.

ghost use Rattle.std.specs.Prelude.{◌≡◌, ◌<◌, ◌≤◌, ℕ, length, IfOk, IfSome, IsTrue, slice_index_or, false};
ghost use Rattle.std.specs.Option.{option_map};
ghost use Rattle.std.specs.Str.{IsCharBoundary};
ghost use Rattle.tw_types.specs.Text.{IsText};
ghost use Rattle.tw_code.specs.machine.Texts.{byte_of, may_cut, part_of, is_among, count_in, count_out, found_in, found};

use crate::instr::Sought;
use memchr::memmem;
use std::alloc::{AllocError, Global};
use tw_types::Text;

/// Returns the byte at a place of a text, if there is one.
pub fn byte_of(text: &[u8], place: i64) -> Option<i64>
    ensures { result ≡ byte_of text.now place }
{
    let Ok(place) = usize::try_from(place) else {
        return None;
    };
    match text.get(place) {
        Some(byte) => Some(i64::from(*byte)),
        None => None,
    }
}

/// Marks the bytes of a set.
fn marks_of(set: &[u8]) -> [bool; 256]
    ensures long { length result ≡ 256 }
    ensures marks { (byte : ℕ) → byte < 256 → slice_index_or result byte false ≡ is_among set.now byte }
{
    let mut marks = [false; 256];
    for byte in set {
        marks[usize::from(*byte)] = true;
    }
    marks
}

/// Returns how many bytes at the start of a text are in the set.
fn count_in(set: &[u8], text: &[u8]) -> usize
    ensures is { result ≡ count_in set.now text.now }
    ensures short { result ≤ length text.now }
{
    let marks = marks_of(set);
    let mut count = 0;
    for byte in text {
        if !marks[usize::from(*byte)] {
            return count;
        }
        count += 1;
    }
    count
}

/// Returns how many bytes of a text are before the first one that is in the set.
fn count_out(set: &[u8], text: &[u8]) -> usize
    ensures is { result ≡ count_out set.now text.now }
    ensures short { result ≤ length text.now }
{
    let marks = marks_of(set);
    let mut count = 0;
    for byte in text {
        if marks[usize::from(*byte)] {
            return count;
        }
        count += 1;
    }
    count
}

/// Returns how far into the rest of a text a search leads.
#[tactic(auto, using(crate::proofs::Finding::find_is))]
fn found_in(sought: Sought, pattern: &[u8], rest: &[u8]) -> Option<usize>
    ensures is { result ≡ found_in sought pattern.now rest.now }
    ensures short { IfSome result (λ count. count ≤ length rest.now) }
{
    match sought {
        Sought::Find => memmem::find(rest, pattern),
        Sought::Span => Some(count_in(pattern, rest)),
        Sought::Until => Some(count_out(pattern, rest)),
    }
}

/// Returns the place that a search from a place of a text on finds.
pub fn found(sought: Sought, text: &[u8], pattern: &[u8], from: i64) -> Option<i64>
    ensures { result ≡ found sought text.now pattern.now from }
{
    let Ok(from) = usize::try_from(from) else {
        return None;
    };
    if from > text.len() {
        return None;
    }
    match found_in(sought, pattern, &text[from..]) {
        Some(count) => Some((from + count) as i64),
        None => None,
    }
}

/// Returns whether a place is in a text or at its end, and in no character.
#[tactic(auto, using(crate::proofs::Cutting::cut_is))]
fn may_cut(text: &str, place: usize) -> bool
    ensures is { result ≡ may_cut text.now place }
    ensures boundary { IsTrue result → IsCharBoundary text.now place }
{
    text.is_char_boundary(place)
}

/// Returns the text from one place up to another, if it may be cut at both.
pub fn part_of(text: &str, from: i64, to: i64) -> Option<&str>
    ensures is { option_map (λ part. part.now) result ≡ part_of text.entry.now from to }
    ensures short { IfSome result (λ part. length part.now ≤ length text.entry.now) }
{
    let (Ok(from), Ok(to)) = (usize::try_from(from), usize::try_from(to)) else {
        return None;
    };
    let fits = (from <= to) & may_cut(text, from) & may_cut(text, to);
    if fits { Some(&text[from..to]) } else { None }
}

/// Copies the text from one place up to another to an owned text, if it may be cut at both.
pub fn part(alloc: Global, text: &str, from: i64, to: i64) -> Result<Option<Text>, AllocError>
    requires { IsText text.now }
    ensures { IfOk result (λ part. part ≡ part_of text.now from to) }
{
    match part_of(text, from, to) {
        Some(part) => Ok(Text::new(String::from_str(alloc, part)?).ok()),
        None => Ok(None),
    }
}
