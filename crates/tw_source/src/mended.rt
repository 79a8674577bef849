//! Texts with other lines in the place of rejected ones, so that the lines after them can be read.

use crate::first_words::first_word;
use crate::name_place::has_name;
use std::alloc::{AllocError, Global};
use tw_asm::{AsmFault, Due, FaultNo};
use tw_lexer::{before_colon, line_numbered};

/// The most bytes of a text of which more than one error is reported.
pub(crate) const LONGEST: usize = 262_144;

/// Statements that aren't instructions, by their first words, with the replacement of a wrong one.
const STATEMENTS: [(&str, &str); 6] = [
    ("names", "names"),
    ("version", "version 5"),
    ("proc", "proc control"),
    ("regs", "regs"),
    ("const", ""),
    ("let", ""),
];

/// A text with other lines in the place of rejected ones.
#[derive(Drop)]
pub(crate) struct Mended<'a> {
    /// The text as it is written.
    pub(crate) written: &'a str,
    pub(crate) text: String,
    /// The numbers of the lines that were replaced.
    pub(crate) numbers: Vec<usize>,
}

/// Returns a text with another line in the place of the one with this number, from 1. No line has number 0.
pub(crate) fn with_line(
    alloc: Global,
    text: &str,
    number: usize,
    other: &str,
) -> Result<String, AllocError> {
    let mut out = String::new(alloc);
    for (index, line) in text.lines().enumerate() {
        let is_replaced = number.checked_sub(1) == Some(index);
        out.push_str(if is_replaced { other } else { line })?;
        out.push('\n')?;
    }
    Ok(out)
}

// ---- the replacement of a rejected line

/// Returns the replacement of a statement that begins with this word, if that isn't an instruction.
fn statement_for(first: &str) -> Option<&'static str> {
    for (word, line) in &STATEMENTS {
        if first == *word {
            return Some(*line);
        }
    }
    None
}

/// Returns the replacement of a line whose first word can't be there, unless no procedure begins before it or in it.
fn misplaced(first: &str, next: &str, due: Due) -> Option<&'static str> {
    if first.starts_with("#") || first.starts_with("//") {
        return Some("");
    }
    let is_within = matches!(due, Due::Registers | Due::Body(_));
    if is_within && statement_for(first).is_some() {
        return Some("");
    }
    if next == "regs" {
        return Some("proc control");
    }
    match due {
        Due::Registers => Some("regs"),
        Due::Body(_) => Some("RET"),
        _ => None,
    }
}

/// Returns the replacement of a line with a wrong word after the first: a label that the line begins with is kept. A line `proc` that no line
/// `regs` follows is taken for an instruction.
fn corrected<'b>(first: &'b str, next: &str) -> &'b str {
    match statement_for(first) {
        Some(_) if first == "proc" && next != "regs" => "RET",
        Some(line) => line,
        None if first.ends_with(":") => first,
        None => "RET",
    }
}

/// Returns the replacement of a line with something past a limit, unless the text can't be read without the line.
fn within_limit<'b>(first: &'b str, next: &str, due: Due) -> Option<&'b str> {
    match due {
        Due::Name | Due::Instruction => Some(""),
        Due::Procedure | Due::Procedures | Due::Instructions => None,
        _ => Some(corrected(first, next)),
    }
}

/// Returns the replacement of a line with a fault, unless the text can't be read without the line.
pub(crate) fn stand_in<'b>(first: &'b str, next: &str, fault: AsmFault) -> Option<&'b str> {
    match fault.no {
        FaultNo::Word => misplaced(first, next, fault.due),
        FaultNo::LabelTwice => Some(""),
        FaultNo::Limit => within_limit(first, next, fault.due),
        _ => Some(corrected(first, next)),
    }
}

/// Returns the replacement of a line with a wrong name.
pub(crate) fn stand_in_of_name<'b>(first: &'b str, next: &str) -> &'b str {
    corrected(first, next)
}

// ---- what follows from replaced lines

/// Returns whether another line than the one with this number has a name. A misspelt name is in one line alone.
pub(crate) fn occurs_elsewhere(text: &str, number: usize, word: &[u8]) -> bool {
    let name = before_colon(word).unwrap_or(word);
    for (index, line) in text.lines().enumerate() {
        if index.saturating_add(1) != number && has_name(line.as_bytes(), name) {
            return true;
        }
    }
    false
}

/// Returns the number of the last line with a word before the one of this number, or 0.
fn line_before(text: &str, number: usize) -> usize {
    let mut last = 0;
    for (index, line) in text.lines().enumerate() {
        let code = line.trim_ascii();
        let count = index.saturating_add(1);
        if count < number && !code.is_empty() && !code.starts_with(";") {
            last = count;
        }
    }
    last
}

impl Mended<'_> {
    /// Returns whether the line with this number was replaced.
    pub(crate) fn is_replaced(&self, number: usize) -> bool {
        self.numbers.contains(&number)
    }

    /// Returns whether a line that was replaced, and isn't an instruction, has a name.
    pub(crate) fn defined(&self, word: &[u8]) -> bool {
        for number in &self.numbers {
            if let Some(line) = line_numbered(self.written, *number) {
                let is_definition = statement_for(first_word(self.written, *number)).is_some();
                if is_definition && has_name(line.as_bytes(), word) {
                    return true;
                }
            }
        }
        false
    }

    /// Returns whether the line with this number has registers, and no procedure begins in the line before.
    pub(crate) fn lacks_head(&self, number: usize) -> bool {
        first_word(self.written, number) == "regs"
            && first_word(self.written, line_before(self.written, number)) != "proc"
    }

    /// Returns whether the line before the one with this number was replaced.
    pub(crate) fn is_replaced_before(&self, number: usize) -> bool {
        self.is_replaced(line_before(self.written, number))
    }

    /// Returns whether the head of a procedure was replaced.
    pub(crate) fn changed_heads(&self) -> bool {
        for number in &self.numbers {
            if first_word(self.written, *number) == "proc"
                || first_word(self.text.as_str(), *number) == "proc"
            {
                return true;
            }
        }
        false
    }

    /// Returns the number of the procedure of a line, if the line is in one.
    fn procedure_at(&self, number: usize) -> Option<usize> {
        let mut heads = 0usize;
        for line in self.text.lines().take(number) {
            if line.split_whitespace().next() == Some("proc") {
                heads = heads.saturating_add(1);
            }
        }
        heads.checked_sub(1)
    }

    /// Returns whether a line was replaced in the procedure of the line with this number.
    pub(crate) fn is_changed(&self, number: usize) -> bool {
        let procedure = self.procedure_at(number);
        for other in &self.numbers {
            if self.procedure_at(*other) == procedure {
                return true;
            }
        }
        false
    }

    /// Returns the numbers of the procedures in which a line was replaced.
    pub(crate) fn changed_procedures(&self, alloc: Global) -> Result<Vec<usize>, AllocError> {
        let mut changed = Vec::new(alloc);
        for number in &self.numbers {
            if let Some(procedure) = self.procedure_at(*number) {
                changed.push(procedure)?;
            }
        }
        Ok(changed)
    }
}
