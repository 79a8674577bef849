//! Assembly texts with a fault: the error's word, and what is printed of it.

ghost use Rattle.std.specs.Prelude.{◌≡◌, IfOk};
ghost use Rattle.tw_source.specs.Failure.{fault_failure as fault_failure_is};
ghost use Rattle.tw_source.specs.Program.{IsFailure, plain_in};
ghost use Rattle.tw_source.specs.Source.{written};
ghost use Rattle.tw_source.specs.declared.program.NoProgram.TheVariants.{Text};
ghost use Rattle.tw_visible.specs.Visible.{HidesNothing};

use crate::failure::{Failure, Position};
use crate::first_words::first_word;
use crate::name_hint::put_head;
use crate::source::{plain_or, written};
use std::alloc::{AllocError, Global};
use tw_asm::{AsmFault, FaultNo};
use tw_diagnostics::{
    Reason, error_word, put_shown_line, put_text_diagnostic, put_usual, text_reason,
};
use tw_lexer::{line_numbered, put};
use tw_visible::visible_bytes;

/// An assembly text with a fault. If it has names, the fault is in the expanded text.
#[derive(Drop)]
pub struct FaultyText<'a> {
    /// The text as it is written.
    pub text: &'a str,
    /// The expanded text, if it has names.
    pub plain: Option<String>,
    pub fault: AsmFault,
}

/// Returns whether both texts have a line with these numbers, and the same one.
fn is_same_line(text: &str, number: usize, plain: &str, own: usize) -> bool {
    match (line_numbered(text, number), line_numbered(plain, own)) {
        (Some(line), Some(other)) => line == other,
        _ => false,
    }
}

impl FaultyText<'_> {
    /// Returns the text in which the fault is.
    pub(crate) fn plain(&self) -> &str
        ensures { result.now ≡ plain_in self.entry.now }
    {
        plain_or(self.text, &self.plain)
    }

    /// Returns the number of the fault's line, as it is written.
    pub(crate) fn line(&self) -> usize
        ensures { result ≡ written self.now.plain self.now.fault.line }
    {
        written(&self.plain, self.fault.line)
    }

    /// Returns whether the fault's line is written as it is expanded.
    fn is_written(&self) -> bool {
        match &self.plain {
            Some(plain) => is_same_line(self.text, self.line(), plain.as_str(), self.fault.line),
            None => true,
        }
    }

    /// Returns whether the head of the procedure that the line calls is printed: if the text has names, and operands are wrong.
    fn is_head_printed(&self) -> bool {
        match self.fault.no {
            FaultNo::Operand => self.plain.is_some(),
            _ => false,
        }
    }

    /// Returns the word of the fault, and its column; zeros if it is at none, or its line isn't written as it is expanded.
    fn word(&self, reason: &Reason<'_>) -> (usize, usize) {
        if self.is_written() {
            error_word(reason)
        } else {
            (0, 0)
        }
    }
}

/// Returns the error of a fault at this word and column of its line.
pub fn fault_failure(fault: AsmFault, at: (usize, usize)) -> Failure
    ensures { result ≡ fault_failure_is fault.no fault.line at }
{
    let position = Position::Line {
        line: fault.line,
        word: at.0,
        column: at.1,
    };
    Failure::coded(b'A', fault.no.number(), position)
}

/// Returns the error of a text with a fault.
pub(crate) fn text_failure(alloc: Global, faulty: &FaultyText<'_>) -> Result<Failure, AllocError>
    ensures { IfOk result (IsFailure (Text faulty.now)) }
{
    let reason = text_reason(alloc, faulty.plain(), faulty.fault)?;
    let fault = AsmFault {
        line: faulty.line(),
        ..faulty.fault
    };
    Ok(fault_failure(fault, faulty.word(&reason)))
}

/// Returns the line of a fault, as it is written and as it is expanded, why it is rejected, and the head of the procedure that it calls by a name.
pub(crate) fn fault_details(alloc: Global, faulty: &FaultyText<'_>) -> Result<Vec<u8>, AllocError>
    ensures { IfOk result (λ details. HidesNothing details.items) }
{
    let reason = text_reason(alloc, faulty.plain(), faulty.fault)?;
    let mut out = Vec::new(alloc);
    let own = faulty.fault.line;
    if !faulty.is_written() {
        put_shown_line(&mut out, faulty.text, faulty.line())?;
        put(&mut out, "expands to: ")?;
    }
    put_text_diagnostic(alloc, &mut out, faulty.plain(), own, &reason)?;
    if matches!(faulty.fault.no, FaultNo::Word) {
        put_usual(&mut out, first_word(faulty.plain(), own))?;
    }
    if faulty.is_head_printed() {
        put_head(alloc, &mut out, faulty.text, faulty.line())?;
    }
    visible_bytes(alloc, &out)
}
