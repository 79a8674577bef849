//! The expansion of a symbolic assembly text.

ghost use Rattle.std.specs.Prelude.{◌≡◌, IfOk, IsTrue, MatchOption, filter, length, string_bytes};
ghost use Rattle.std.specs.Str.Lines.{lines};
ghost use Rattle.tw_symbols.specs.Answers.{IsNamed, named_by};
ghost use Rattle.tw_symbols.specs.Lines.{IsTaken, Line, line_words};
ghost use Rattle.tw_symbols.specs.Seen.{texts};
ghost use Rattle.tw_symbols.specs.Expansion.{HasNames};
ghost use Rattle.tw_symbols.specs.Renamed.{is_written};

use crate::hidden::is_written;
use crate::line::take_line;
use crate::line_expansion::put_line;
use crate::line_kind::is_names_line;
use crate::names::Names;
use crate::procedures::{Procedures, procedures_of};
use crate::rejection::{NameError, Rejection};
use crate::sections::Sections;
use crate::unread::put_unread;
use std::alloc::{AllocError, Global};

/// Returns whether these words are just `names`; `None` if there are none.
fn named_by(words: &[&[u8]]) -> Option<bool>
    ensures { result ≡ named_by (texts words.now) }
{
    match words {
        [first, others @ ..] => Some(is_names_line(first, others)),
        [] => None,
    }
}

/// Returns whether a line has just the word `names`; `None` if it has no word.
fn names_in(alloc: Global, line: &str) -> Result<Option<bool>, AllocError>
    ensures { IfOk result (λ named. (taken : Line) × IsTaken taken line.now × (named ≡ named_by (line_words taken))) }
{
    let taken = take_line(alloc, line)?;
    Ok(named_by(&taken.words))
}

/// Returns whether the first line that has a word has just `names`.
pub fn is_named(alloc: Global, text: &str) -> Result<bool, AllocError>
    ensures { IfOk result (λ named. IsNamed named text.now) }
{
    for line in text.lines() {
        if let Some(named) = names_in(alloc, line)? {
            return Ok(named);
        }
    }
    Ok(false)
}

/// Returns whether the first of a line's words is this one.
pub fn begins_with(words: &[&[u8]], word: &[u8]) -> bool {
    match words {
        [first, ..] => *first == word,
        [] => false,
    }
}

/// Returns whether types may follow these words of a line `regs`. After an open quote they would be a part of its text.
fn takes_types(words: &[&[u8]]) -> bool {
    !words.iter().any(|word| word.contains(&b'"'))
}

/// Adds the expansion of a line, and its line feed; and its names.
fn put_taken<'a>(
    alloc: Global,
    procedures: &Procedures<'_>,
    number: usize,
    names: &mut Names<'a>,
    out: &mut Sections<'a>,
    line: &'a str,
) -> Result<(), Rejection<'a>> {
    let taken = take_line(alloc, line)?;
    let lists = begins_with(&taken.words, b"regs");
    if lists || begins_with(&taken.words, b"proc") {
        out.close(names)?;
    }
    put_line(alloc, procedures, number, names, out.lines(), &taken.words)?;
    if lists && takes_types(&taken.words) {
        out.open(taken.rest)?;
    } else {
        out.end_line(taken.rest)?;
    }
    Ok(())
}

/// Makes the error of symbolic assembly from the rejection of the line of this number.
fn at_line(number: usize, rejection: Rejection<'_>) -> NameError<'_> {
    match rejection {
        Rejection::NoMemory => NameError::memory(),
        Rejection::Flawed(no, word) => NameError {
            no,
            line: number,
            word,
        },
    }
}

/// Adds the expansion of the line of this number, and its names. An error has this number.
fn put_numbered_line<'a>(
    alloc: Global,
    procedures: &Procedures<'_>,
    number: usize,
    names: &mut Names<'a>,
    out: &mut Sections<'a>,
    line: &'a str,
) -> Result<(), NameError<'a>> {
    match put_taken(alloc, procedures, number, names, out, line) {
        Ok(()) => Ok(()),
        Err(rejection) => Err(at_line(number, rejection)),
    }
}

/// Returns the expansion of all lines, or the first error.
fn expanded_lines<'a>(
    alloc: Global,
    procedures: &Procedures<'_>,
    text: &'a str,
) -> Result<Vec<u8>, NameError<'a>> {
    let mut out = Sections::new(alloc);
    let mut names = Names::new(alloc, procedures.hash);
    for (index, line) in text.lines().enumerate() {
        let number = index + 1;
        if !put_unread(alloc, procedures, number, &names, out.lines(), line)? {
            put_numbered_line(alloc, procedures, number, &mut names, &mut out, line)?;
        }
    }
    out.close(&names)?;
    Ok(out.into_text())
}

/// Returns the expansion of a text whose first line with a word is `names`, or its first error.
fn named_text<'a>(alloc: Global, text: &'a str) -> Result<Vec<u8>, NameError<'a>> {
    let procedures = procedures_of(alloc, text)?;
    expanded_lines(alloc, &procedures, text)
}

/// Returns whether the expansion of a text has a line for each of the text's, apart from hidden ones.
fn has_all(text: &str, plain: &str) -> bool
    ensures { IsTrue result → length (filter is_written (lines plain.now)) ≡ length (lines text.now) }
{
    plain.lines().filter(|line| is_written(line)).count() == text.lines().count()
}

/// Returns the expansion as a string, if it is one.
fn as_text(plain: Vec<u8>) -> Option<String> {
    match String::from_utf8(plain) {
        Ok(plain) => Some(plain),
        Err(_) => None,
    }
}

/// Expands a symbolic assembly text, or returns its first error; `None` if the text has no names.
///
/// The expansion hasn't been compared with the text: `other_line` does that.
pub fn expanded_text<'a>(alloc: Global, text: &'a str) -> Result<Option<String>, NameError<'a>>
    ensures { IfOk result (λ read. MatchOption read (HasNames (lines text.entry.now) → ⊥)
        (λ plain. HasNames (lines text.entry.now) × (length (filter is_written (lines (string_bytes plain))) ≡ length (lines text.entry.now)))) }
{
    if !is_named(alloc, text)? {
        return Ok(None);
    }
    let plain = named_text(alloc, text)?;
    let Some(plain) = as_text(plain) else {
        return Err(NameError::internal(0));
    };
    if has_all(text, plain.as_str()) {
        Ok(Some(plain))
    } else {
        Err(NameError::internal(0))
    }
}
