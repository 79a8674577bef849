//! Reads a program.

ghost use Rattle.std.specs.Prelude.{◌≡◌, ◌≢◌, Err, None, Ok, Some, IfErr, IfOk, IfSome, IsUtf8, string_bytes};
ghost use Rattle.tw_order.specs.declared.order.Source.TheVariants.{Assembly, Hex};
ghost use Rattle.tw_source.specs.Program.{IsKept, IsFailure, MayHaveDetails, PrintsNone, HasProgram, HasNoProgram, TextHasProgram, source_text};
ghost use Rattle.tw_source.specs.Reply.{reply};
ghost use Rattle.tw_source.specs.Source.{MayBeSource, text_of};
ghost use Rattle.tw_source.specs.Source.{plain_or as plain_or_is};
ghost use Rattle.tw_asm.specs.Answers.{HasFault, IsLined};
ghost use Rattle.tw_binary.specs.declared.fault.Fault.{Fault as ByteFault};
ghost use Rattle.tw_binary.specs.Reading.{program_of};
ghost use Rattle.tw_source.specs.declared.program.NoProgram.TheVariants.{Bytes, NoMemory};
ghost use Rattle.tw_symbols.specs.Renamed.{IsRenamedUpTo};
ghost use Rattle.tw_visible.specs.Visible.{HidesNothing};

use crate::details::Details;
use crate::digits::digits;
use crate::failure::{Failure, Position, put_failure_line};
use crate::faulty_text::{FaultyText, fault_details, text_failure};
use crate::further::put_further;
use crate::names::{UnexpandedText, name_details, name_failure};
use crate::reply::Reply;
use crate::source::{SourceText, plain_or};
use hex::FromHexError;
use std::alloc::{AllocError, Global};
use tw_asm::{AsmFault, LinedProgram, assemble_lined};
use tw_binary::{Fault, FaultNo, decode};
use tw_code::Program;
use tw_order::Source;
use tw_symbols::{NameError, NameNo, expanded_text, other_line};

/// A program, with the text from which it was read if there is one.
#[derive(Drop)]
pub struct ReadProgram<'a> {
    pub program: Program,
    pub source: Option<SourceText<'a>>,
}

/// A reason why there is no program. Of a text it has what was found of it, so that no printer reads the text again.
#[derive(Drop)]
pub enum NoProgram<'a> {
    NotHex,
    NotUtf8,
    Bytes(Fault),
    Text(FaultyText<'a>),
    Named(UnexpandedText<'a>),
    NoMemory,
}

impl From<AllocError> for NoProgram<'_> {
    ghost from_gives = { λ _ e. e ≡ NoMemory };

    fn from(_error: AllocError) -> Self {
        NoProgram::NoMemory
    }
}

/// Returns the program that bytes encode.
fn program_in_bytes<'a>(alloc: Global, bytes: &[u8]) -> Result<Program, NoProgram<'a>>
    ensures spells { IfOk result (λ program. program_of bytes.now ≡ Ok program) }
    ensures none { IfErr result (λ why. why ≢ NoMemory → (fault : ByteFault) × (why ≡ Bytes fault) × (program_of bytes.now ≡ Err fault)) }
{
    match decode(alloc, bytes) {
        Ok(program) => Ok(program),
        Err(fault) => match fault.no {
            FaultNo::NoMemory => Err(NoProgram::NoMemory),
            _ => Err(NoProgram::Bytes(fault)),
        },
    }
}

/// Returns the program that hex text encodes.
fn program_in_hex<'a>(alloc: Global, input: &[u8]) -> Result<Program, NoProgram<'a>>
    ensures spells { IfOk result (λ program. HasProgram Hex input.now program) }
    ensures none { IfErr result (λ why. why ≢ NoMemory → HasNoProgram Hex input.now why) }
{
    let text = input.to_vec(alloc)?;
    match hex::decode(alloc, digits(text)) {
        Ok(bytes) => program_in_bytes(alloc, &bytes),
        Err(FromHexError::OutOfMemory) => Err(NoProgram::NoMemory),
        Err(_) => Err(NoProgram::NotHex),
    }
}

/// Returns the number of the line at which the expansion of symbolic assembly isn't this text, as `other_line` does; `None` if the text has no names.
fn wrong_line(
    alloc: Global,
    text: &str,
    plain: &Option<String>,
    up_to: Option<usize>,
) -> Result<Option<usize>, AllocError>
    ensures { IfOk result (λ line. line ≡ None → IfSome plain.now (λ plain. IsRenamedUpTo up_to text.now (string_bytes plain))) }
{
    match plain {
        Some(plain) => other_line(alloc, text, plain.as_str(), up_to),
        None => Ok(None),
    }
}

/// Returns the error of a text whose expansion isn't the text at this line.
fn unexpanded(text: &str, line: usize) -> NoProgram<'_>
    ensures { IsUtf8 text.entry.now → HasNoProgram Assembly text.entry.now result }
{
    let error = NameError::internal(line);
    NoProgram::Named(UnexpandedText { text, error })
}

/// Returns the program of a text that was assembled, if its expanded text is this text with its names replaced.
fn checked<'a>(
    alloc: Global,
    text: &'a str,
    plain: Option<String>,
    lined: LinedProgram,
) -> Result<ReadProgram<'a>, NoProgram<'a>>
    requires kept { IsKept text.now plain }
    requires lined { IsLined (plain_or_is text.now plain) (Ok lined) }
    ensures spells { IfOk result (λ read. TextHasProgram text.entry.now read.program) }
    ensures source { IfOk result (λ read. MayBeSource read.source read.program.procedures) }
    ensures text { IfOk result (λ read. text_of read.source ≡ Some text.entry.now) }
    ensures none { IfErr result (λ why. why ≢ NoMemory → IsUtf8 text.entry.now → HasNoProgram Assembly text.entry.now why) }
{
    match wrong_line(alloc, text, &plain, None) {
        Ok(None) => Ok(ReadProgram {
            program: lined.program,
            source: Some(SourceText {
                text,
                plain,
                lines: lined.lines,
            }),
        }),
        Ok(Some(line)) => Err(unexpanded(text, line)),
        Err(_) => Err(NoProgram::NoMemory),
    }
}

/// Returns why a text has no program, by the fault of its expanded text if it has names.
fn faulty<'a>(alloc: Global, text: &'a str, plain: Option<String>, fault: AsmFault) -> NoProgram<'a>
    requires kept { IsKept text.now plain }
    requires fault { HasFault (plain_or_is text.now plain) fault.no fault.line fault.found }
    ensures { result ≢ NoMemory → IsUtf8 text.entry.now → HasNoProgram Assembly text.entry.now result }
{
    match wrong_line(alloc, text, &plain, fault.found) {
        Ok(None) => NoProgram::Text(FaultyText { text, plain, fault }),
        Ok(Some(line)) => unexpanded(text, line),
        Err(_) => NoProgram::NoMemory,
    }
}

/// Returns the program of a text with this expanded text, if it has names.
fn program_of_plain<'a>(
    alloc: Global,
    text: &'a str,
    plain: Option<String>,
) -> Result<ReadProgram<'a>, NoProgram<'a>>
    requires { IsKept text.now plain }
    ensures spells { IfOk result (λ read. TextHasProgram text.entry.now read.program) }
    ensures source { IfOk result (λ read. MayBeSource read.source read.program.procedures) }
    ensures text { IfOk result (λ read. text_of read.source ≡ Some text.entry.now) }
    ensures none { IfErr result (λ why. why ≢ NoMemory → IsUtf8 text.entry.now → HasNoProgram Assembly text.entry.now why) }
{
    match assemble_lined(alloc, plain_or(text, &plain)) {
        Ok(lined) => checked(alloc, text, plain, lined),
        Err(fault) => match fault.no {
            tw_asm::FaultNo::NoMemory => Err(NoProgram::NoMemory),
            _ => Err(faulty(alloc, text, plain, fault)),
        },
    }
}

/// Returns the program of a text.
pub(crate) fn program_of_text<'a>(
    alloc: Global,
    text: &'a str,
) -> Result<ReadProgram<'a>, NoProgram<'a>>
    ensures spells { IfOk result (λ read. TextHasProgram text.entry.now read.program) }
    ensures source { IfOk result (λ read. MayBeSource read.source read.program.procedures) }
    ensures text { IfOk result (λ read. text_of read.source ≡ Some text.entry.now) }
    ensures none { IfErr result (λ why. why ≢ NoMemory → IsUtf8 text.entry.now → HasNoProgram Assembly text.entry.now why) }
{
    match expanded_text(alloc, text) {
        Ok(plain) => program_of_plain(alloc, text, plain),
        Err(error) => match error.no {
            NameNo::NoMemory => Err(NoProgram::NoMemory),
            _ => Err(NoProgram::Named(UnexpandedText { text, error })),
        },
    }
}

/// Returns the program of bytes that are to be text.
fn program_in_text<'a>(alloc: Global, input: &'a [u8]) -> Result<ReadProgram<'a>, NoProgram<'a>>
    ensures spells { IfOk result (λ read. HasProgram Assembly input.entry.now read.program) }
    ensures source { IfOk result (λ read. MayBeSource read.source read.program.procedures) }
    ensures text { IfOk result (λ read. text_of read.source ≡ Some input.entry.now) }
    ensures none { IfErr result (λ why. why ≢ NoMemory → HasNoProgram Assembly input.entry.now why) }
{
    match str::from_utf8(input) {
        Ok(text) => program_of_text(alloc, text),
        Err(_) => Err(NoProgram::NotUtf8),
    }
}

/// Returns the program that is read, or why there is none.
pub fn read_program<'a>(
    alloc: Global,
    source: Source,
    input: &'a [u8],
) -> Result<ReadProgram<'a>, NoProgram<'a>>
    ensures spells { IfOk result (λ read. HasProgram source input.entry.now read.program) }
    ensures source { IfOk result (λ read. MayBeSource read.source read.program.procedures) }
    ensures text { IfOk result (λ read. text_of read.source ≡ source_text source input.entry.now) }
    ensures none { IfErr result (λ why. why ≢ NoMemory → HasNoProgram source input.entry.now why) }
{
    match source {
        Source::Hex => {
            let program = program_in_hex(alloc, input)?;
            Ok(ReadProgram {
                program,
                source: None,
            })
        }
        Source::Assembly => program_in_text(alloc, input),
    }
}

/// Returns the error of input that encodes no program.
pub fn parse_failure(alloc: Global, why: &NoProgram<'_>) -> Result<Failure, AllocError>
    ensures { IfOk result (λ failure. (why.now ≢ NoMemory) × IsFailure why.now failure) }
{
    match why {
        NoProgram::NotHex => Ok(Failure::coded(b'H', 1, Position::Nowhere)),
        NoProgram::NotUtf8 => Ok(Failure::coded(b'H', 3, Position::Nowhere)),
        NoProgram::Bytes(fault) => {
            let position = Position::Byte(fault.offset);
            Ok(Failure::coded(b'F', fault.no.number(), position))
        }
        NoProgram::Text(faulty) => text_failure(alloc, faulty),
        NoProgram::Named(unexpanded) => name_failure(alloc, unexpanded),
        NoProgram::NoMemory => Err(AllocError),
    }
}

/// Returns the lines after the first of the error of input that encodes no program. If it isn't a text, there are none.
pub(crate) fn parse_details(alloc: Global, why: &NoProgram<'_>) -> Result<Vec<u8>, AllocError>
    ensures { IfOk result (λ lines. MayHaveDetails why.now lines.items) }
{
    match why {
        NoProgram::Text(faulty) => fault_details(alloc, faulty),
        NoProgram::Named(unexpanded) => name_details(alloc, unexpanded.text, unexpanded.error),
        _ => Ok(Vec::new(alloc)),
    }
}

/// Returns the lines after the first, and those of further errors of a text.
fn text_details(alloc: Global, why: &NoProgram<'_>, text: &str) -> Result<Details, AllocError>
    ensures { IfOk result (λ details. HidesNothing details.lines.items) }
{
    let mut details = Details::new(alloc, parse_details(alloc, why)?);
    put_further(alloc, &mut details, text)?;
    details.visible(alloc)
}

/// Returns all lines after the first.
fn all_details(alloc: Global, why: &NoProgram<'_>) -> Result<Details, AllocError>
    ensures { IfOk result (λ details. MayHaveDetails why.now details.lines.items) }
{
    match why {
        NoProgram::Text(faulty) => text_details(alloc, why, faulty.text),
        NoProgram::Named(unexpanded) => text_details(alloc, why, unexpanded.text),
        _ => Ok(Details {
            lines: Vec::new(alloc),
            more: Vec::new(alloc),
        }),
    }
}

/// Returns the reply to input that encodes no program, with diagnostics and further errors if it is a text.
pub fn parse_error_reply(alloc: Global, why: &NoProgram<'_>) -> Result<Reply, AllocError>
    ensures { IfOk result (λ r. (why.now ≢ NoMemory) × PrintsNone why.now (reply r.text.items r.close)) }
{
    let failure = parse_failure(alloc, why)?;
    let details = all_details(alloc, why)?;
    let mut text = Vec::new(alloc);
    put_failure_line(&mut text, failure)?;
    details.reply_after(text, failure)
}
