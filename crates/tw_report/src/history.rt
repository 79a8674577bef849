//! Reads the events of a trace.

ghost use Rattle.std.specs.Prelude.{◌≡◌, ◌↔◌, ◌+◌, ◌<◌, ◌≤◌, IfOk, IsTrue, MatchResult, Ok, length};
ghost use Rattle.std.specs.Option.{option_map};
ghost use Rattle.std.specs.List.{AllByRecursion};
ghost use Rattle.tw_report.specs.Events.{IsEvent};
ghost use Rattle.tw_report.specs.History.{AreParts, IsNoHistory, IsWord, IsTraceOf, lines_in};
ghost use Rattle.tw_report.specs.reading.History.{IsFirstLine, Takes};

use crate::read_event::event_of;
use crate::words::{first_word, is_blank};
use std::alloc::Global;
use tw_types::Event;

/// The error of a text that isn't a trace.
#[derive(Clone, Copy)]
pub enum HistoryFault {
    /// E01: the line of this number, from 1, is the first that isn't an event.
    UnknownLine(usize),
    NoMemory,
}

/// Returns whether a line has only this word.
fn is_word(word: &[u8], line: &[u8]) -> bool
    requires { 0 < length word.now }
    ensures { IsTrue result ↔ IsWord word.now line.now }
{
    let (first, rest) = first_word(line);
    first == word && is_blank(rest)
}

/// Returns the first line, and the text after its line feed, if it has one.
fn first_line(text: &[u8]) -> (&[u8], Option<&[u8]>)
    ensures { IsFirstLine text.now result.0.now (option_map (λ r. r.now) result.1) }
{
    let mut count = 0;
    for byte in text {
        if *byte == b'\n' {
            return (&text[..count], Some(&text[count + 1..]));
        }
        count += 1;
    }
    (text, None)
}

/// Appends the event of a line, if it has one. Returns `false` if the line is `end`.
fn take_line(events: &mut Vec<Event>, line: &[u8], number: usize) -> Result<bool, HistoryFault>
    ensures { Takes events.old.items line.now number result events.new.items }
{
    if is_blank(line) {
        return Ok(true);
    }
    if is_word(b"end", line) {
        return Ok(false);
    }
    match event_of(line) {
        None => Err(HistoryFault::UnknownLine(number)),
        Some(event) => match events.push(event) {
            Ok(()) => Ok(true),
            Err(_) => Err(HistoryFault::NoMemory),
        },
    }
}

/// Returns the events of a trace, one for each line, up to the line `end` or to the text's end.
///
/// Blank lines are skipped, and counted. Anything after `end` is ignored.
pub fn read_history(alloc: Global, text: &[u8]) -> Result<Vec<Event>, HistoryFault>
    ensures traced { MatchResult result (λ events. IsTraceOf (lines_in text.now) (Ok events.items)) (λ fault. IsNoHistory (lines_in text.now) fault) }
    ensures sizes { IfOk result (λ events. AllByRecursion IsEvent events.items) }
    ensures few { IfOk result (λ events. length events.items ≤ length text.now + 1) }
{
    let mut events = Vec::new(alloc);
    let mut rest = text;
    let mut count = 0;
    loop {
        let (line, after) = first_line(rest);
        if !take_line(&mut events, line, count + 1)? {
            return Ok(events);
        }
        let Some(others) = after else {
            return Ok(events);
        };
        rest = others;
        count += 1;
    }
}

/// Returns the text before the first line that is `events`, and the text after that line. Without such a line, returns the whole
/// text and an empty one.
pub fn cut_history(text: &[u8]) -> (&[u8], &[u8])
    ensures { AreParts text.now result.0.now result.1.now }
{
    let mut count = 0;
    let mut rest = text;
    loop {
        let (line, after) = first_line(rest);
        if is_word(b"events", line) {
            return (&text[..count], after.unwrap_or(&[]));
        }
        let Some(others) = after else {
            return (text, &[]);
        };
        count += line.len() + 1;
        rest = others;
    }
}
