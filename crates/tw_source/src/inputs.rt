//! Inputs that follow the program in what is read.

ghost use Rattle.std.specs.Prelude.{◌≡◌, ◌++◌, List, map, IfOk, OnOk};
ghost use Rattle.std.specs.Option.{option_map};
ghost use Rattle.std.specs.Str.Lines.{lines};
ghost use Rattle.clap.specs.Words.{Text};
ghost use Rattle.tw_inputs.specs.InputWords.{IsRejectedWord, RejectedWord, refused_word};
ghost use Rattle.tw_inputs.specs.WordErrors.{IsInputReason};
ghost use Rattle.tw_source.specs.Inputs.{PrintsInputWord, begins_inputs as begins_inputs_is, cut_inputs as cut_inputs_is, fault_position, input_word_line, lines_in, unreadable, words_in as words_in_is};
ghost use Rattle.tw_source.specs.FirstLine.{IsFirstLine};
ghost use Rattle.tw_source.specs.Reply.{reply};

use crate::close::Close;
use crate::failure::{Failure, Position};
use crate::reply::Reply;
use std::alloc::{AllocError, Global};
use tw_inputs::{Place, WordError};
use tw_lexer::{put, put_numbered};
use tw_visible::{put_visible, visible_bytes};

/// Returns the first line, and what follows its line feed, if it has one.
fn first_line(text: &[u8]) -> (&[u8], Option<&[u8]>)
    ensures { IsFirstLine text.now result.0.now (option_map (λ rest. rest.now) result.1) }
{
    match text.iter().position(|byte| *byte == b'\n') {
        Some(at) => (&text[..at], Some(&text[at + 1..])),
        None => (text, None),
    }
}

/// Returns whether inputs follow a line.
fn begins_inputs(line: &[u8]) -> bool
    ensures { result ≡ begins_inputs_is line.now }
{
    line == b"inputs".as_slice() || line == b"inputs\r".as_slice()
}

/// Cuts what is read at its first line `inputs`: into what precedes that line, and what follows it.
pub fn cut_inputs(text: &[u8]) -> Option<(&[u8], &[u8])>
    ensures { option_map (λ cut. (cut.0.now, cut.1.now)) result ≡ cut_inputs_is (lines_in text.now) }
{
    let mut count = 0;
    let mut rest = text;
    loop {
        let (line, after) = first_line(rest);
        if begins_inputs(line) {
            return Some((&text[..count], after.unwrap_or(&[])));
        }
        let Some(others) = after else {
            return None;
        };
        count += line.len() + 1;
        rest = others;
    }
}

/// Returns the input words: the lines up to `end`, without the empty ones.
pub fn words_in<'a>(alloc: Global, inputs: &'a str) -> Result<Vec<&'a str>, AllocError>
    ensures { IfOk result (λ words. map (λ word. word.now) words.items ≡ words_in_is (lines inputs.entry.now)) }
{
    let mut words = Vec::new(alloc);
    for line in inputs.lines() {
        if line == "end" {
            return Ok(words);
        }
        if !line.is_empty() {
            words.push(line)?;
        }
    }
    Ok(words)
}

/// Adds the first line about an input word that can't be parsed; the words count from 1.
fn put_input_word_line(out: &mut Vec<u8>, number: usize) -> Result<(), AllocError>
    ensures { OnOk result (out.new.items ≡ out.old.items ++ input_word_line number) }
{
    put_numbered(out, "input word ", number)?;
    put(out, " refused\n")
}

/// Returns the reply with the number of the input word that can't be parsed, and the line with the reason.
pub fn input_word_reply(alloc: Global, number: usize, reason: &[u8]) -> Result<Reply, AllocError>
    ensures { IfOk result (λ r. PrintsInputWord (refused_word number reason.now) (reply r.text.items r.close)) }
{
    let mut text = Vec::new(alloc);
    put_input_word_line(&mut text, number)?;
    put_visible(alloc, &mut text, reason)?;
    Ok(Reply {
        text,
        close: Close::Unreadable(Failure::uncoded(Position::Input(number))),
        more: None,
    })
}

/// Returns where a fault of JSON inputs is: in one input, or in all.
fn fault_position(place: Place) -> Position
    ensures { result ≡ fault_position place }
{
    match place {
        Place::Text | Place::Array => Position::Nowhere,
        Place::Item(number) => Position::Input(number),
    }
}

/// Returns the reply with these lines of a fault in JSON inputs.
pub fn unreadable_reply(alloc: Global, lines: &[u8], place: Place) -> Result<Reply, AllocError>
    ensures { IfOk result (λ r. reply r.text.items r.close ≡ unreadable place lines.now) }
{
    let failure = Failure::uncoded(fault_position(place));
    Ok(Reply {
        text: visible_bytes(alloc, lines)?,
        close: Close::Unreadable(failure),
        more: None,
    })
}

/// Returns the reply to input words of which one can't be parsed.
pub fn refused_words_reply(alloc: Global, why: WordError) -> Result<Reply, AllocError>
    ensures { IfOk result (λ r. (words : List Text) → IsInputReason words why
        → (refused : RejectedWord) × IsRejectedWord words refused × PrintsInputWord refused (reply r.text.items r.close)) }
{
    match why {
        WordError::Refused(number, reason) => input_word_reply(alloc, number, reason.as_slice()),
        WordError::NoMemory => Err(AllocError),
    }
}
