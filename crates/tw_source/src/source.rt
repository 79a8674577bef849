//! Lines of a text, by the instructions of its program.

ghost use Rattle.std.specs.Prelude.{◌≡◌, ◌++◌, ◌-◌, ℕ, List, MatchOption, IfOk, OnOk, None, Some, slice_get};
ghost use Rattle.std.specs.Str.Lines.{lines};
ghost use Rattle.tw_asm.specs.Origins.{AreOrigins, instr_at};
ghost use Rattle.tw_code.specs.declared.procedure.Procedure.{Procedure as Section};
ghost use Rattle.tw_source.specs.Source.{IsExpanded, IsSourceAt, MayBeSourceAt, plain_of, plain_or, text_of, written};
ghost use Rattle.tw_source.specs.WrittenLines.{IsTable};
ghost use Rattle.tw_symbols.specs.Symbols.{AreSymbols};
ghost use Rattle.tw_source.specs.Text.{IsFromLine, IsLineOf, IsLineOfError, IsPlaceLine, IsPlaceText, IsRejectionLine, in_name, line_in_text, text_line, visible_line};
ghost use Rattle.tw_visible.specs.Visible.{HidesNothing};

use crate::text_lines::{TextLines, written_lines};
use std::alloc::{AllocError, Global};
use tw_asm::LineNumbers;
use tw_diagnostics::{head_line, rejection_text, shape_text};
use tw_lexer::{line_numbered, put, put_numbered, put_shortened};
use tw_symbols::{Symbols, put_with_name, written_line};
use tw_verify::{Refused, VerifyError};
use tw_visible::{put_visible, visible_bytes};

/// A text, with the line of each instruction of its program.
#[derive(Drop)]
pub struct SourceText<'a> {
    /// The text as it is written.
    pub text: &'a str,
    /// The expanded text, if it has names.
    pub plain: Option<String>,
    pub lines: LineNumbers,
}

/// Returns the expanded text, which is the text itself if it has no names.
pub(crate) fn plain_or<'b>(text: &'b str, plain: &'b Option<String>) -> &'b str
    ensures { result.now ≡ plain_or text.entry.now plain.entry.now }
{
    match plain {
        Some(plain) => plain.as_str(),
        None => text,
    }
}

/// Returns the number of the written line from which the line of this number comes, in the expanded text if there is one.
pub(crate) fn written(plain: &Option<String>, number: usize) -> usize
    ensures { result ≡ written plain.now number }
{
    match plain {
        Some(plain) => written_line(plain.as_str(), number),
        None => number,
    }
}

impl SourceText<'_> {
    /// Returns the number of the line from which the instruction at a place comes, as it is written.
    pub fn line(&self, procedure: usize, place: usize) -> Option<usize>
        ensures { (program : List Section) → AreOrigins (plain_of self.now) program self.now.lines.procedures → IsExpanded self.now.text.now self.now.plain
            → MatchOption result (instr_at program procedure place ≡ None) (IsFromLine self.now.text.now procedure place) }
    {
        let number = self.lines.at(procedure, place)?;
        Some(written(&self.plain, number))
    }

    /// Returns the expanded text.
    pub fn plain(&self) -> &str
        ensures { result.now ≡ plain_of self.now }
    {
        plain_or(self.text, &self.plain)
    }
}

/// Returns the names of a program's procedures from the text from which it was read; without a text there are none.
pub fn symbols_of(alloc: Global, source: &Option<SourceText<'_>>) -> Result<Symbols, AllocError>
    ensures { IfOk result (λ names. AreSymbols (text_of source.now) names) }
{
    match source {
        Some(source) => Symbols::of(alloc, source.text),
        None => Ok(Symbols::none(alloc)),
    }
}

/// Returns the line with this number, counted from 1, without white space around it.
fn trimmed_line<'a>(text: &'a str, number: usize) -> Option<&'a str>
    ensures { MatchOption result (slice_get (lines text.entry.now) (number - 1) ≡ None) (λ line. IsLineOf text.entry.now number line.now) }
{
    let line = line_numbered(text, number)?;
    Some(line.trim_ascii())
}

/// Returns the number of the line from which the instruction at a place comes, and the line as it is written.
fn source_line<'b>(
    source: &'b SourceText<'_>,
    procedure: usize,
    place: usize,
) -> Option<(usize, &'b str)>
    ensures { (program : List Section) → AreOrigins (plain_of source.now) program source.now.lines.procedures → IsExpanded source.now.text.now source.now.plain
        → MatchOption result
        (instr_at program procedure place ≡ None)
        (λ found. IsFromLine source.now.text.now procedure place found.0 × IsLineOf source.now.text.now found.0 found.1.now) }
{
    let number = source.line(procedure, place)?;
    let line = trimmed_line(source.text, number)?;
    Some((number, line))
}

/// Like `source_line`, but looks the line up in a table of the text's lines.
pub fn line_in<'b>(
    source: &SourceText<'_>,
    table: &TextLines<'b>,
    procedure: usize,
    place: usize,
) -> Option<(usize, &'b str)>
    ensures { (program : List Section) → IsTable table.now source.now.text.now source.now.plain → AreOrigins (plain_of source.now) program source.now.lines.procedures → IsExpanded source.now.text.now source.now.plain
        → MatchOption result
        (instr_at program procedure place ≡ None)
        (λ found. IsFromLine source.now.text.now procedure place found.0 × IsLineOf source.now.text.now found.0 found.1.now) }
{
    let number = source.lines.at(procedure, place)?;
    table.written(number)
}

/// Adds the name of the procedure in which a line is, if it has one.
fn put_in(out: &mut Vec<u8>, name: &[u8]) -> Result<(), AllocError>
    ensures { OnOk result (out.new.items ≡ out.old.items ++ in_name name.now) }
{
    if name.is_empty() {
        return Ok(());
    }
    put(out, " in ")?;
    out.extend_from_slice(name)
}

/// Adds a line as a message has it: cut if it is long, and without hidden characters.
fn put_visible_line(alloc: Global, out: &mut Vec<u8>, line: &str) -> Result<(), AllocError>
    ensures { OnOk result (out.new.items ≡ out.old.items ++ visible_line line.now) }
{
    let mut shown = Vec::new(alloc);
    put_shortened(&mut shown, line.as_bytes())?;
    put_visible(alloc, out, &shown)
}

/// Adds the line with this number, with the name of its procedure, without the white space around it.
fn put_line_in(
    alloc: Global,
    out: &mut Vec<u8>,
    name: &[u8],
    number: usize,
    line: &str,
) -> Result<(), AllocError>
    ensures { OnOk result (out.new.items ≡ out.old.items ++ line_in_text name.now number line.now) }
{
    put_numbered(out, "at line ", number)?;
    put_in(out, name)?;
    put(out, ": ")?;
    put_visible_line(alloc, out, line)?;
    put(out, "\n")
}

/// Adds the line with this number, without the white space around it, and cut if it is long.
pub fn put_text_line(
    alloc: Global,
    out: &mut Vec<u8>,
    number: usize,
    line: &str,
) -> Result<(), AllocError>
    ensures { OnOk result (out.new.items ≡ out.old.items ++ text_line number line.now) }
{
    put_numbered(out, "at line ", number)?;
    put(out, ": ")?;
    put_visible_line(alloc, out, line)?;
    put(out, "\n")
}

/// Adds the line from which an instruction comes.
fn put_source_line(
    alloc: Global,
    out: &mut Vec<u8>,
    source: &SourceText<'_>,
    procedure: usize,
    place: usize,
) -> Result<(), AllocError>
    ensures { (program : List Section) → OnOk result (IsSourceAt source.now program procedure place
        → (more : List ℕ) × IsPlaceLine source.now.text.now procedure place more × (out.new.items ≡ out.old.items ++ more)) }
{
    let Some((number, line)) = source_line(source, procedure, place) else {
        return Ok(());
    };
    let names = Symbols::of(alloc, source.text)?;
    put_line_in(alloc, out, names.procedure(procedure), number, line)
}

/// Adds the line from which an instruction comes. Without a text there is none.
pub fn put_place_line(
    alloc: Global,
    out: &mut Vec<u8>,
    source: &Option<SourceText<'_>>,
    procedure: usize,
    place: usize,
) -> Result<(), AllocError>
    ensures { (program : List Section) → OnOk result (MayBeSourceAt source.now program procedure place
        → (more : List ℕ) × IsPlaceText (text_of source.now) procedure place more × (out.new.items ≡ out.old.items ++ more)) }
{
    match source {
        Some(source) => put_source_line(alloc, out, source, procedure, place),
        None => Ok(()),
    }
}

/// Adds why an instruction is rejected, with the register's name beside its number.
fn put_diagnostic(
    alloc: Global,
    out: &mut Vec<u8>,
    source: &SourceText<'_>,
    number: usize,
    refused: &Refused,
) -> Result<(), AllocError> {
    let numbers = written_lines(alloc, &source.plain)?;
    let reason = rejection_text(alloc, &source.lines, &numbers, refused)?;
    put_with_name(alloc, out, source.text, number, &reason)
}

/// Adds what is wrong with main's shape.
fn put_main_reason(alloc: Global, out: &mut Vec<u8>, refused: &Refused) -> Result<(), AllocError> {
    match refused.program.procedures().first() {
        Some(main) => out.extend_from_slice(&shape_text(alloc, main)?),
        None => Ok(()),
    }
}

/// Adds the line with this number, and why the program is rejected there.
fn put_rejected_line(
    alloc: Global,
    out: &mut Vec<u8>,
    source: &SourceText<'_>,
    refused: &Refused,
    number: usize,
) -> Result<(), AllocError> {
    let Some(line) = trimmed_line(source.text, number) else {
        return Ok(());
    };
    match refused.no {
        VerifyError::MainShape => {
            put_text_line(alloc, out, number, line)?;
            put_main_reason(alloc, out, refused)
        }
        _ => {
            let names = Symbols::of(alloc, source.text)?;
            put_line_in(alloc, out, names.procedure(refused.procedure), number, line)?;
            put_diagnostic(alloc, out, source, number, refused)
        }
    }
}

/// Returns the details of an error at the line with this number, to be printed after its first line. Without a text there are none.
pub(crate) fn rejection_details(
    alloc: Global,
    source: &Option<SourceText<'_>>,
    refused: &Refused,
    number: Option<usize>,
) -> Result<Vec<u8>, AllocError>
    ensures { IfOk result (λ details. HidesNothing details.items) }
{
    let mut out = Vec::new(alloc);
    if let (Some(source), Some(number)) = (source, number) {
        put_rejected_line(alloc, &mut out, source, refused, number)?;
    }
    visible_bytes(alloc, &out)
}

/// Returns the number of the line at which the program of a text is wrong, in the expanded text.
fn own_rejection_line(
    alloc: Global,
    source: &SourceText<'_>,
    refused: &Refused,
) -> Result<Option<usize>, AllocError>
    ensures { IfOk result (λ at. IsSourceAt source.now refused.now.program.procedures refused.now.procedure refused.now.place
        → (number : ℕ) × IsLineOfError refused.now.no (plain_of source.now) refused.now.procedure refused.now.place number × (at ≡ Some number)) }
{
    match refused.no {
        VerifyError::MainShape => head_line(alloc, source.plain()),
        _ => Ok(source.lines.at(refused.procedure, refused.place)),
    }
}

/// Returns the number of the line at which the program of a text is wrong.
fn text_rejection_line(
    alloc: Global,
    source: &SourceText<'_>,
    refused: &Refused,
) -> Result<Option<usize>, AllocError>
    ensures { IfOk result (λ at. IsSourceAt source.now refused.now.program.procedures refused.now.procedure refused.now.place
        → IsRejectionLine (Some source.now.text.now) refused.now.no refused.now.procedure refused.now.place at) }
{
    match own_rejection_line(alloc, source, refused)? {
        Some(number) => Ok(Some(written(&source.plain, number))),
        None => Ok(None),
    }
}

/// Returns the number of the line at which a rejected program is wrong. Without a text there is none.
pub fn rejection_line(
    alloc: Global,
    source: &Option<SourceText<'_>>,
    refused: &Refused,
) -> Result<Option<usize>, AllocError>
    ensures { IfOk result (λ at. MayBeSourceAt source.now refused.now.program.procedures refused.now.procedure refused.now.place
        → IsRejectionLine (text_of source.now) refused.now.no refused.now.procedure refused.now.place at) }
{
    match source {
        Some(source) => text_rejection_line(alloc, source, refused),
        None => Ok(None),
    }
}
