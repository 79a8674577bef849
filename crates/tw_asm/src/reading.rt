//! Reads the lines of a text, one by one. Goals aren't resolved yet.

ghost use Rattle.std.specs.Prelude.{◌≡◌, ◌⊎◌, ◌↔◌, IsTrue, MatchOption, MatchResult, None, map};
ghost use Rattle.tw_asm.specs.Fault.{MayBegin};
ghost use Rattle.tw_asm.specs.reading.Progress.{AreClosed, AreFinished, AreNotRead, VersionRead, HasSections, IsEmptyAt, IsFlawFault, IsNotClosed, IsNotFinished, LinesAreRead, TakenLine, TakenStatement, WordsRead, IsLimitLine, IsMemory, seen_reading, seen_section, seen_stage, stage_of};
ghost use Rattle.tw_asm.specs.reading.Expected.{IsExpectedBy, expectation};
ghost use Rattle.tw_lexer.specs.Seen.{seen as seen_word};
ghost use Rattle.tw_asm.specs.Seen.{seen as seen_statement};
ghost use Rattle.tw_asm.specs.Statement.{Head, Registers};
ghost use Rattle.tw_asm.specs.declared.statement.First.TheVariants as expected;
ghost use Rattle.tw_asm.specs.declared.statement.First.{First};
ghost use Rattle.tw_asm.specs.declared.fault.FaultNo.TheVariants as fault;

use crate::bodies::{take_draft, take_label};
use crate::fault::{AsmFault, FaultNo};
use crate::first::{first_of, is_plainly_blank};
use crate::flaw::{Due, Flaw};
use crate::read::statement_of;
use crate::rejection::Rejection;
use crate::statement::{First, Statement, Unlinked};
use indexmap::IndexMap;
use std::alloc::Global;
use tw_code::{Program, Version};
use tw_lexer::{TextHash, TokenError, Word, words_of};
use tw_types::{Items, Kind, Param, Scalar};

/// The labels of a procedure, and their places.
pub type Labels<'a> = IndexMap<&'a [u8], usize, TextHash>;

/// An instruction whose goal isn't resolved yet, and the number of its line.
#[derive(Drop)]
pub struct UnlinkedLine<'a> {
    pub draft: Unlinked<'a>,
    pub number: usize,
}

/// A procedure whose goals aren't resolved yet; its labels with their places.
#[derive(Drop)]
pub struct Section<'a> {
    pub kind: Kind,
    pub params: Items<Param>,
    pub registers: Items<Scalar>,
    pub labels: Labels<'a>,
    pub drafts: Vec<UnlinkedLine<'a>>,
}

/// The stage of reading, which decides which statements may follow.
#[derive(Drop)]
pub enum Stage<'a> {
    /// Nothing is read yet.
    Start,
    /// Only the version is read.
    AfterVersion,
    /// The types of value registers have to follow.
    AfterHead { kind: Kind, params: Items<Param> },
    InBody(Section<'a>),
}

/// The result of the lines so far.
#[derive(Drop)]
pub struct Reading<'a> {
    /// The hash function for the labels of the text.
    pub hash: TextHash,
    pub version: Version,
    /// The procedures that are complete.
    pub sections: Vec<Section<'a>>,
    /// The line at which the last procedure begins.
    pub head_line: usize,
    pub stage: Stage<'a>,
}

/// Returns whether such a statement is allowed at this stage.
fn may_begin(stage: &Stage<'_>, expected: First) -> bool
    ensures { IsTrue result ↔ MayBegin (stage_of (seen_stage stage.now)) expected }
{
    match stage {
        Stage::Start => matches!(expected, First::Version | First::Head),
        Stage::AfterVersion => matches!(expected, First::Head),
        Stage::AfterHead { .. } => matches!(expected, First::Registers),
        Stage::InBody(_) => matches!(expected, First::Head | First::Body),
    }
}

/// Returns the kind of statement that a first word begins, if it is allowed at this stage.
fn expected_of(version: Version, word: &Word<'_>, stage: &Stage<'_>) -> Option<First>
    ensures { MatchOption result
        ((first : First) → IsExpectedBy version (seen_word word.now) first → MayBegin (stage_of (seen_stage stage.now)) first → ⊥)
        (λ first. IsExpectedBy version (seen_word word.now) first × MayBegin (stage_of (seen_stage stage.now)) first) }
{
    match word {
        Word::Quoted(_) => None,
        Word::Bare(bytes) => {
            let first = first_of(version, bytes)?;
            if may_begin(stage, first) {
                Some(first)
            } else {
                None
            }
        }
    }
}

/// Returns whether a procedure has begun and has no instruction.
fn is_empty(stage: &Stage<'_>) -> bool
    ensures { IsTrue result ↔ IsEmptyAt (seen_stage stage.now) }
{
    match stage {
        Stage::InBody(section) => section.drafts.is_empty(),
        _ => false,
    }
}

/// Returns the line for which a limit is reported: the head of the empty procedure that another head would end, or else `number`.
fn limit_line(reading: &Reading<'_>, first: First, number: usize) -> usize
    ensures { IsLimitLine (seen_reading reading.now) first number result }
{
    if matches!(first, First::Head) && is_empty(&reading.stage) {
        reading.head_line
    } else {
        number
    }
}

/// Returns what may begin a line.
fn begin_due(reading: &Reading<'_>) -> Due {
    match reading.stage {
        Stage::Start => Due::Start,
        Stage::AfterVersion => Due::Head,
        Stage::AfterHead { .. } => Due::Registers,
        Stage::InBody(_) => Due::Body(reading.version),
    }
}

/// Returns the fault of a line that is broken after these words: where they stop being a statement, or at the break.
fn broken_fault(
    alloc: Global,
    version: Version,
    mut words: Vec<Word<'_>>,
    number: usize,
) -> AsmFault
    ensures { IsMemory result ⊎ ((result.no ≡ fault.Operand) × (result.line ≡ number)) }
{
    // No statement has a word like that, so that its words stop there at the latest.
    if words.push(Word::Bare(b"\"")).is_err() {
        return AsmFault::memory();
    }
    match statement_of(alloc, version, &words) {
        Ok(_) => AsmFault::new(FaultNo::Operand, number, words.len(), Due::End),
        Err(Rejection::NoMemory) => AsmFault::memory(),
        Err(Rejection::Flawed(flaw)) => AsmFault::new(
            FaultNo::Operand,
            number,
            flaw.word,
            flaw.due,
        ),
    }
}

/// Returns the fault of a limit: that of this line, or of the empty procedure that it would end.
fn limit_fault(reading: &Reading<'_>, first: First, number: usize, flaw: Flaw) -> AsmFault
    ensures no { result.no ≡ fault.Limit }
    ensures line { IsLimitLine (seen_reading reading.now) first number result.line }
{
    let line = limit_line(reading, first, number);
    if line == number {
        AsmFault::new(FaultNo::Limit, line, flaw.word, flaw.due)
    } else {
        AsmFault::new(FaultNo::Limit, line, 0, Due::Instruction)
    }
}

/// Returns the fault of a line whose words have this error.
fn flaw_fault(reading: &Reading<'_>, first: First, number: usize, flaw: Flaw) -> AsmFault
    ensures { IsFlawFault (seen_reading reading.now) first number flaw result }
{
    match flaw.error {
        TokenError::Form => AsmFault::new(FaultNo::Operand, number, flaw.word, flaw.due),
        TokenError::Limit => limit_fault(reading, first, number, flaw),
    }
}

/// Reads the statement of a line, or `None` if the line has no word.
fn read_words<'a>(
    alloc: Global,
    reading: &Reading<'_>,
    number: usize,
    line: &'a str,
) -> Result<Option<Statement<'a>>, AsmFault>
    ensures { WordsRead (seen_reading reading.now) number line.now result }
{
    let read = words_of(alloc, line.as_bytes())?;
    let Some(word) = read.words.first() else {
        return if read.whole {
            Ok(None)
        } else {
            Err(AsmFault::new(FaultNo::Word, number, 1, begin_due(reading)))
        };
    };
    let Some(expected) = expected_of(reading.version, word, &reading.stage) else {
        return Err(AsmFault::new(FaultNo::Word, number, 1, begin_due(reading)));
    };
    if !read.whole {
        return Err(broken_fault(alloc, reading.version, read.words, number));
    }
    match statement_of(alloc, reading.version, &read.words) {
        Ok(statement) => Ok(Some(statement)),
        Err(Rejection::NoMemory) => Err(AsmFault::memory()),
        Err(Rejection::Flawed(flaw)) => Err(flaw_fault(reading, expected, number, flaw)),
    }
}

/// Appends the last procedure to the complete ones. If it has no instruction, returns a fault at the line of its head.
fn close<'a>(
    mut sections: Vec<Section<'a>>,
    head_line: usize,
    stage: Stage<'a>,
) -> Result<Vec<Section<'a>>, AsmFault>
    ensures { MatchResult result (λ all. AreClosed (map seen_section sections.entry.items) (seen_stage stage.entry) (map seen_section all.items)) (λ f. IsNotClosed (seen_stage stage.entry) head_line f) }
{
    if let Stage::InBody(section) = stage {
        if section.drafts.is_empty() {
            return Err(AsmFault::new(FaultNo::Limit, head_line, 0, Due::Instruction));
        }
        sections.push(section)?;
    }
    Ok(sections)
}

/// Takes the version, which comes before all other statements.
fn take_version<'a>(reading: Reading<'a>, version: Version) -> Reading<'a>
    ensures { seen_reading result ≡ record (seen_reading reading.entry) { version = version; place = VersionRead } }
{
    Reading {
        version,
        stage: Stage::AfterVersion,
        ..reading
    }
}

/// Takes the head of a procedure, and ends the procedure before it.
fn take_head<'a>(
    reading: Reading<'a>,
    number: usize,
    kind: Kind,
    params: Items<Param>,
) -> Result<Reading<'a>, AsmFault>
    ensures { MayBegin (stage_of (seen_stage reading.entry.stage)) expected.Head → TakenStatement (seen_reading reading.entry) number (record { statement = Head kind params; goal = None }) result }
{
    let Reading {
        hash,
        version,
        sections,
        head_line,
        stage,
    } = reading;
    let sections = close(sections, head_line, stage)?;
    if sections.len() >= usize::from(Program::MAX_PROCEDURES) {
        return Err(AsmFault::new(FaultNo::Limit, number, 0, Due::Procedures));
    }
    Ok(Reading {
        hash,
        version,
        sections,
        head_line: number,
        stage: Stage::AfterHead { kind, params },
    })
}

/// Takes the types of value registers, and begins the body of the procedure.
fn take_registers<'a>(
    alloc: Global,
    reading: Reading<'a>,
    number: usize,
    registers: Items<Scalar>,
) -> Result<Reading<'a>, AsmFault>
    ensures { MayBegin (stage_of (seen_stage reading.entry.stage)) expected.Registers → TakenStatement (seen_reading reading.entry) number (record { statement = Registers registers; goal = None }) result }
{
    let Reading {
        hash,
        version,
        sections,
        head_line,
        stage,
    } = reading;
    let Stage::AfterHead { kind, params } = stage else {
        return Err(AsmFault::new(FaultNo::Word, number, 1, Due::Nothing));
    };
    let section = Section {
        kind,
        params,
        registers,
        labels: IndexMap::with_hasher(alloc, hash),
        drafts: Vec::new(alloc),
    };
    Ok(Reading {
        hash,
        version,
        sections,
        head_line,
        stage: Stage::InBody(section),
    })
}

/// Takes a statement, by its kind.
fn take_statement<'a>(
    alloc: Global,
    reading: Reading<'a>,
    number: usize,
    statement: Statement<'a>,
) -> Result<Reading<'a>, AsmFault>
    ensures { MayBegin (stage_of (seen_stage reading.entry.stage)) (expectation (seen_statement statement.entry).statement) → TakenStatement (seen_reading reading.entry) number (seen_statement statement.entry) result }
{
    match statement {
        Statement::Version(version) => Ok(take_version(reading, version)),
        Statement::Head { kind, params } => take_head(reading, number, kind, params),
        Statement::Registers(registers) => take_registers(alloc, reading, number, registers),
        Statement::Label(name) => take_label(reading, number, name),
        Statement::Code(draft) => take_draft(reading, number, draft),
    }
}

/// Reads a line and takes its statement, if it has one.
fn take_line<'a>(
    alloc: Global,
    reading: Reading<'a>,
    number: usize,
    line: &'a str,
) -> Result<Reading<'a>, AsmFault>
    ensures { TakenLine (seen_reading reading.entry) number line.now result }
{
    match read_words(alloc, &reading, number, line) {
        Ok(None) => Ok(reading),
        Ok(Some(statement)) => take_statement(alloc, reading, number, statement),
        Err(f) => Err(f),
    }
}

/// Reads all lines of a text.
fn read_lines<'a>(alloc: Global, text: &'a str) -> Result<Reading<'a>, AsmFault>
    ensures { LinesAreRead text.now result }
{
    let mut reading = Reading {
        hash: TextHash::new(text),
        version: Version::One,
        sections: Vec::new(alloc),
        head_line: 0,
        stage: Stage::Start,
    };
    for (index, line) in text.lines().enumerate() {
        if !is_plainly_blank(line) {
            reading = match take_line(alloc, reading, index + 1, line) {
                Ok(next) => next,
                Err(fault) => {
                    return Err(AsmFault {
                        found: Some(index + 1),
                        ..fault
                    });
                }
            };
        }
    }
    Ok(reading)
}

/// A program whose goals aren't resolved yet.
#[derive(Drop)]
pub struct UnlinkedProgram<'a> {
    pub version: Version,
    pub sections: Vec<Section<'a>>,
}

/// Returns the procedures, or a fault if there are none, or the last one has no instruction.
fn finish<'a>(reading: Reading<'a>) -> Result<Vec<Section<'a>>, AsmFault>
    ensures { MatchResult result (λ all. AreFinished (seen_reading reading.entry) (map seen_section all.items)) (λ f. IsNotFinished (seen_reading reading.entry) f) }
{
    let Reading {
        sections,
        head_line,
        stage,
        ..
    } = reading;
    match stage {
        Stage::Start | Stage::AfterVersion => Err(AsmFault::new(
            FaultNo::Limit,
            1,
            0,
            Due::Procedure,
        )),
        Stage::AfterHead { .. } => Err(AsmFault::new(
            FaultNo::Limit,
            head_line,
            0,
            Due::Instruction,
        )),
        Stage::InBody(section) => close(sections, head_line, Stage::InBody(section)),
    }
}

/// Reads a whole text, or returns its first fault. Goals are resolved later, by `link`.
pub fn read_text<'a>(alloc: Global, text: &'a str) -> Result<UnlinkedProgram<'a>, AsmFault>
    ensures { MatchResult result
        (λ program. HasSections text.now program.version (map seen_section program.sections.items))
        (λ f. AreNotRead text.now f) }
{
    let reading = read_lines(alloc, text)?;
    let version = reading.version;
    let sections = finish(reading)?;
    Ok(UnlinkedProgram { version, sections })
}
