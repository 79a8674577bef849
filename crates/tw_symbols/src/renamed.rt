//! Compares a symbolic text with its expansion.

ghost use Rattle.std.specs.Prelude.{◌≡◌, ◌≢◌, false, IfOk, IsTrue, None, Some};
ghost use Rattle.tw_symbols.specs.Answers.{IsBeside, IsRenamedBy};
ghost use Rattle.tw_symbols.specs.Lines.{IsTaken, Line, line_words};
ghost use Rattle.tw_symbols.specs.Renamed.{AreFilled, AreRead, IsLine, IsRenamedUpTo};
ghost use Rattle.tw_symbols.specs.Seen.{seen_names, seen_procedures};

use crate::hidden::{is_filled, is_written};
use crate::line::{is_plainly_blank, take_line};
use crate::names::Names;
use crate::procedures::{Procedures, procedures_of, reads_heads};
use crate::renamed_line::is_line;
use std::alloc::{AllocError, Global};
use std::str::Lines;

/// Returns whether each hidden register of the procedure is filled.
fn are_filled(names: &Names<'_>) -> bool
    ensures { IsTrue result → AreFilled (seen_names names.now) }
{
    names.literals.len() == names.hidden.len()
}

/// Returns whether each hidden register of the last procedure is filled and read.
fn are_done(names: &Names<'_>) -> bool
    ensures { IsTrue result → AreFilled (seen_names names.now) × AreRead (seen_names names.now) }
{
    are_filled(names) && names.read == names.hidden.len()
}

/// Returns whether a line has this expansion, and adds its names.
fn is_taken<'a>(
    alloc: Global,
    procedures: &Procedures<'_>,
    number: usize,
    names: &mut Names<'a>,
    line: &'a str,
    plain: &'a str,
) -> Result<bool, AllocError>
    ensures { IfOk result (λ is. IsTrue is → (taken other : Line) × IsTaken taken line.now × IsTaken other plain.now
        × IsLine (seen_procedures procedures.now) number (seen_names names.old) (line_words taken) (line_words other) (seen_names names.new)) }
{
    if is_plainly_blank(line) && is_plainly_blank(plain) {
        return Ok(true);
    }
    let taken = take_line(alloc, line)?;
    let other = take_line(alloc, plain)?;
    is_line(alloc, procedures, number, names, &taken.words, &other.words)
}

/// Reads a line of an expanded text: a hidden one, or that of the next written line, of which `count` were read. Returns how many are read then, and whether
/// the line is as it has to be; 0 and not, if no line is left.
fn read_beside<'a>(
    alloc: Global,
    procedures: &Procedures<'_>,
    count: usize,
    names: &mut Names<'a>,
    text: &mut Lines<'a>,
    plain: &'a str,
) -> Result<(usize, bool), AllocError>
    ensures { IfOk result (λ read. IsTrue read.1 → IsBeside (seen_procedures procedures.now) count (seen_names names.old) text.old plain.now read.0 (seen_names names.new) text.new) }
{
    if !is_written(plain) {
        return Ok((count, is_filled(alloc, names, plain)?));
    }
    let filled = are_filled(names);
    let (Some(line), Some(number)) = (text.next(), count.checked_add(1)) else {
        return Ok((0, false));
    };
    let taken = is_taken(alloc, procedures, number, names, line, plain)?;
    Ok((number, filled && taken))
}

/// Returns whether so many lines are all that are compared.
fn are_all(up_to: Option<usize>, count: usize) -> bool
    ensures all { IsTrue result → up_to ≡ Some count }
    ensures more { result ≡ false → up_to ≢ Some count }
{
    match up_to {
        Some(most) => most == count,
        None => false,
    }
}

/// Like `other_line`, by the procedures of the text.
fn line_apart<'a>(
    alloc: Global,
    procedures: &Procedures<'_>,
    text: &'a str,
    plain: &'a str,
    up_to: Option<usize>,
) -> Result<Option<usize>, AllocError>
    ensures { IfOk result (λ number. number ≡ None → IsRenamedBy (seen_procedures procedures.now) text.entry.now plain.entry.now up_to) }
{
    let mut names = Names::new(alloc, procedures.hash);
    let mut written = text.lines();
    let mut count = 0;
    for (index, line) in plain.lines().enumerate() {
        if are_all(up_to, index) {
            return Ok(None);
        }
        let (next, is) = read_beside(alloc, procedures, count, &mut names, &mut written, line)?;
        if !is {
            return Ok(Some(next));
        }
        count = next;
    }
    if up_to.is_some() {
        return Ok(None);
    }
    let done = are_done(&names);
    let more = written.next();
    match more {
        Some(_) => Ok(Some(count.saturating_add(1))),
        None if done => Ok(None),
        None => Ok(Some(count)),
    }
}

/// Returns the number of the first line of which the second text hasn't the expansion, its names and literals replaced; `None` if it has that of each. The
/// number is 0 if a line is too many, or if the text has more procedures than a program may have.
///
/// If only some lines of the second text are to be compared, the end isn't; and nothing is of a text that has too many procedures.
pub fn other_line(
    alloc: Global,
    text: &str,
    plain: &str,
    up_to: Option<usize>,
) -> Result<Option<usize>, AllocError>
    ensures { IfOk result (λ number. number ≡ None → IsRenamedUpTo up_to text.now plain.now) }
{
    let procedures = procedures_of(alloc, text)?;
    if reads_heads(&procedures) {
        line_apart(alloc, &procedures, text, plain, up_to)
    } else if up_to.is_some() {
        Ok(None)
    } else {
        Ok(Some(0))
    }
}
