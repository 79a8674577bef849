//! Reading and verifying a program's source.

ghost use Rattle.std.specs.Prelude.{◌≡◌, ◌≢◌, ℕ, IfErr, IfOk, IfSome, List, None, Ok, Some};
ghost use Rattle.tw_binary.specs.Reading.{program_of};
ghost use Rattle.tw_code.specs.declared.procedure.Procedure.{Procedure};
ghost use Rattle.tw_source.specs.Source.{MayBeSource, text_of};
ghost use Rattle.tw_source.specs.declared.program.NoProgram.TheVariants.{NoMemory};
ghost use Rattle.tw_verdict.specs.Source.{Encodes, EncodesNone, IsErrorIn, IsOrigin, IsSourceReading, text_in};
ghost use Rattle.tw_verdict.specs.declared.format.Format.{Format as Form};
ghost use Rattle.tw_verdict.specs.declared.format.Format.TheVariants as format;
ghost use Rattle.tw_visible.specs.Visible.{HidesNothing};

use crate::format::Format;
use crate::text::{SourceVerdict, no_program_verdict, without_line};
use crate::verdict::{accepted, refused_at};
use std::alloc::Global;
use tw_binary::{FaultNo, decode};
use tw_code::Program;
use tw_order::{Caps, Places, Source};
use tw_program_output::{Admitted, admit};
use tw_source::{NoProgram, ReadProgram, Reply, SourceText, parse_error_reply, read_program};
use tw_verify::{Refused, Verified, VerifyError, verify};
use tw_visible::visible_bytes;

/// Returns the line of the instruction at a place; 0 if there is no such instruction.
fn line_in(source: &SourceText<'_>, procedure: usize, place: usize) -> usize
    ensures { (program : List Procedure) → MayBeSource (Some source.now) program → IsOrigin (text_of (Some source.now)) program procedure place result }
{
    match source.line(procedure, place) {
        Some(line) => line,
        None => 0,
    }
}

/// Returns the line of the instruction at a place; 0 if the program wasn't read from a text.
fn line_of(source: &Option<SourceText<'_>>, procedure: usize, place: usize) -> usize
    ensures { (program : List Procedure) → MayBeSource source.now program → IsOrigin (text_of source.now) program procedure place result }
{
    match source {
        Some(source) => line_in(source, procedure, place),
        None => 0,
    }
}

/// Returns the verdict on a program that the verifier rejects.
fn rejection_verdict(source: &Option<SourceText<'_>>, refused: &Refused) -> SourceVerdict
    ensures { (program : List Procedure) → MayBeSource source.now program → IsErrorIn (text_of source.now) program refused.now.no refused.now.procedure refused.now.place result }
{
    match refused.no {
        VerifyError::NoMemory => SourceVerdict::no_memory(),
        no => {
            let verdict = refused_at(b'V', no.number(), refused.procedure, refused.place);
            let line = line_of(source, refused.procedure, refused.place);
            SourceVerdict {
                verdict,
                line,
                word: 0,
                column: 0,
            }
        }
    }
}

/// Returns the text of a reply without hidden characters, if memory lasts.
fn words_in(alloc: Global, reply: &Reply) -> Option<Vec<u8>>
    ensures { IfSome result (λ words. HidesNothing words.items) }
{
    match visible_bytes(alloc, &reply.text) {
        Ok(words) => Some(words),
        Err(_) => None,
    }
}

/// Returns what `check` prints of a program that the verifier rejects, if it is asked for.
fn words_of(
    alloc: Global,
    told: bool,
    source: &Option<SourceText<'_>>,
    program: Program,
) -> Option<Vec<u8>>
    requires { MayBeSource source.now program.procedures }
    ensures { IfSome result (λ words. HidesNothing words.items) }
{
    if !told {
        return None;
    }
    match admit(alloc, source, Places::Hidden, None, Caps::NONE, program) {
        Ok(Admitted::Rejected(reply)) => words_in(alloc, &reply),
        Ok(Admitted::Run(_)) | Err(_) => None,
    }
}

/// Returns what it prints of a source that encodes no program, if it is asked for.
fn parse_words(alloc: Global, told: bool, why: &NoProgram<'_>) -> Option<Vec<u8>>
    ensures { IfSome result (λ words. HidesNothing words.items) }
{
    if !told {
        return None;
    }
    match parse_error_reply(alloc, why) {
        Ok(reply) => words_in(alloc, &reply),
        Err(_) => None,
    }
}

/// Verifies a program that was read.
fn verify_read(
    alloc: Global,
    read: ReadProgram<'_>,
    told: bool,
) -> (Option<Verified>, SourceVerdict, Option<Vec<u8>>)
    requires { MayBeSource read.source read.program.procedures }
    ensures is { (form : Form) (input : List ℕ) → Encodes form input read.entry.program → text_of read.entry.source ≡ text_in form input → IsSourceReading form input result.0 result.1 }
    ensures words { IfSome result.2 (λ words. HidesNothing words.items) }
{
    let ReadProgram { program, source } = read;
    match verify(alloc, program) {
        Ok(verified) => {
            let verdict = accepted(&verified);
            (Some(verified), without_line(verdict), None)
        }
        Err(refused) => {
            let verdict = rejection_verdict(&source, &refused);
            let Refused { program, .. } = refused;
            (None, verdict, words_of(alloc, told, &source, program))
        }
    }
}

/// Reads the bytes of a program.
fn read_bytes<'a>(alloc: Global, bytes: &[u8]) -> Result<ReadProgram<'a>, NoProgram<'a>>
    ensures encodes { IfOk result (λ read. program_of bytes.now ≡ Ok read.program) }
    ensures source { IfOk result (λ read. read.source ≡ None) }
    ensures none { IfErr result (λ why. why ≢ NoMemory → EncodesNone format.Bytes bytes.now why) }
{
    match decode(alloc, bytes) {
        Ok(program) => Ok(ReadProgram {
            program,
            source: None,
        }),
        Err(fault) => match fault.no {
            FaultNo::NoMemory => Err(NoProgram::NoMemory),
            _ => Err(NoProgram::Bytes(fault)),
        },
    }
}

/// Reads the program of a source of this format.
fn read_as<'a>(
    alloc: Global,
    format: Format,
    input: &'a [u8],
) -> Result<ReadProgram<'a>, NoProgram<'a>>
    ensures encodes { IfOk result (λ read. Encodes format input.entry.now read.program) }
    ensures source { IfOk result (λ read. MayBeSource read.source read.program.procedures) }
    ensures text { IfOk result (λ read. text_of read.source ≡ text_in format input.entry.now) }
    ensures none { IfErr result (λ why. why ≢ NoMemory → EncodesNone format input.entry.now why) }
{
    match format {
        Format::Bytes => read_bytes(alloc, input),
        Format::Hex => read_program(alloc, Source::Hex, input),
        Format::Assembly => read_program(alloc, Source::Assembly, input),
    }
}

/// Reads a source of this format, and verifies its program. The program is there if the verdict's letter is 0. Of a rejected source there is what
/// `tw check` prints, if it is asked for and memory lasts.
pub fn read_source(
    alloc: Global,
    format: Format,
    source: &[u8],
    told: bool,
) -> (Option<Verified>, SourceVerdict, Option<Vec<u8>>)
    ensures is { IsSourceReading format source.now result.0 result.1 }
    ensures words { IfSome result.2 (λ words. HidesNothing words.items) }
{
    match read_as(alloc, format, source) {
        Ok(read) => verify_read(alloc, read, told),
        Err(why) => {
            let verdict = no_program_verdict(alloc, &why);
            (None, verdict, parse_words(alloc, told, &why))
        }
    }
}
