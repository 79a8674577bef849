//! Lines of a text, looked up by their numbers in its expansion.

ghost use Rattle.std.specs.Prelude.{◌≡◌, ◌+◌, ◌-◌, ◌<◌, ◌^◌, ◌∷◌, [], None, IfOk, MatchOption, filter, length, map, option_map, slice_get};
ghost use Rattle.std.specs.Str.Lines.{lines};
ghost use Rattle.tw_source.specs.Text.{IsLineAt};
ghost use Rattle.tw_symbols.specs.Renamed.{is_written};
ghost use Rattle.tw_source.specs.WrittenLines.{AreNumbers, AreWritten, IsTable, number_at};

use crate::source::SourceText;
use std::alloc::{AllocError, Global};
use tw_symbols::is_written;

/// A table of a text's lines, for a caller that looks up many; for one line use `line_numbered`.
#[derive(Drop)]
pub struct TextLines<'a> {
    pub lines: Vec<&'a str>,
    /// The number of the written line from which each line of the expanded text comes; none if the text has no names.
    pub written: Vec<usize>,
}

/// Returns the lines of a text, in one pass.
fn lines_of(alloc: Global, text: &str) -> Result<Vec<&str>, AllocError>
    ensures { IfOk result (λ all. map (λ line. line.now) all.items ≡ lines text.entry.now) }
{
    let mut all = Vec::new(alloc);
    for line in text.lines() {
        all.push(line)?;
    }
    Ok(all)
}

/// Returns how many lines are written up to this line of an expanded text, if so many are before it.
fn counted(before: usize, line: &str) -> usize
    requires { before < 2 ^ 63 }
    ensures { result ≡ before + length (filter is_written (line.now ∷ [])) }
{
    if is_written(line) { before + 1 } else { before }
}

/// Returns the number of the written line for each line of an expanded text, in one pass.
fn numbers_of(alloc: Global, plain: &str) -> Result<Vec<usize>, AllocError>
    ensures { IfOk result (λ numbers. AreNumbers plain.now numbers.items) }
{
    let mut numbers = Vec::new(alloc);
    let mut count = 0;
    for (index, line) in plain.lines().enumerate() {
        count = counted(count.min(index), line);
        numbers.push(count)?;
    }
    Ok(numbers)
}

/// Returns the number of the written line for each line of the expanded text; none if the text has no names.
pub(crate) fn written_lines(alloc: Global, plain: &Option<String>) -> Result<Vec<usize>, AllocError>
    ensures { IfOk result (λ numbers. AreWritten plain.now numbers.items) }
{
    match plain {
        Some(plain) => numbers_of(alloc, plain.as_str()),
        None => Ok(Vec::new(alloc)),
    }
}

impl<'a> TextLines<'a> {
    /// Splits a text and its expansion.
    pub fn of(alloc: Global, source: &SourceText<'a>) -> Result<TextLines<'a>, AllocError>
        ensures { IfOk result (λ table. IsTable table source.now.text.now source.now.plain) }
    {
        let lines = lines_of(alloc, source.text)?;
        let written = written_lines(alloc, &source.plain)?;
        Ok(TextLines { lines, written })
    }

    /// Returns the line with this number, counted from 1.
    fn at(&self, number: usize) -> Option<&'a str>
        ensures { option_map (λ line. line.now) result ≡ slice_get (map (λ line. line.now) self.now.lines.items) (number - 1) }
    {
        self.lines.get(number.saturating_sub(1)).copied()
    }

    /// Looks up the line with this number, counted from 1, and returns it without white space around it.
    fn trimmed(&self, number: usize) -> Option<&'a str>
        ensures { MatchOption result (slice_get (map (λ line. line.now) self.now.lines.items) (number - 1) ≡ None) (λ line. IsLineAt (map (λ line. line.now) self.now.lines.items) number line.now) }
    {
        let line = self.at(number)?;
        Some(line.trim_ascii())
    }

    /// Returns the number of the written line from which the line of this number of the expanded text comes.
    fn number_at(&self, own: usize) -> usize
        ensures { result ≡ number_at self.now.written.items own }
    {
        match self.written.get(own.saturating_sub(1)) {
            Some(number) => *number,
            None => own,
        }
    }

    /// Looks up the written line from which the line of this number of the expanded text comes. Returns its number, and the line without white space around it.
    pub fn written(&self, own: usize) -> Option<(usize, &'a str)>
        ensures { MatchOption result (slice_get (map (λ line. line.now) self.now.lines.items) (number_at self.now.written.items own - 1) ≡ None)
            (λ found. (found.0 ≡ number_at self.now.written.items own) × IsLineAt (map (λ line. line.now) self.now.lines.items) found.0 found.1.now) }
    {
        let number = self.number_at(own);
        let line = self.trimmed(number)?;
        Some((number, line))
    }
}
