//! Errors of a text after its first: those that are left when rejected lines are replaced.

use crate::details::Details;
use crate::faulty_text::FaultyText;
use crate::first_words::first_word;
use crate::mended::{LONGEST, Mended, occurs_elsewhere, stand_in, stand_in_of_name, with_line};
use crate::names::UnexpandedText;
use crate::others::{put_others, put_rejection, rejection_of};
use crate::program::{NoProgram, ReadProgram, parse_details, parse_failure, program_of_text};
use std::alloc::{AllocError, Global};
use tw_asm::{Due, FaultNo};
use tw_diagnostics::word_of;
use tw_lexer::line_numbered;
use tw_symbols::{NameError, NameNo, called_head};

/// How often a text is read again at most.
const READINGS: usize = 40;

/// A text with one more line replaced.
#[derive(Drop)]
struct Repair {
    number: usize,
    text: String,
}

/// Returns the first word of the first line with a word after the one of this number, or nothing.
fn word_after(text: &str, number: usize) -> &str {
    for line in text.lines().skip(number) {
        if let Some(word) = line.split_whitespace().next() {
            if !word.starts_with(";") {
                return word;
            }
        }
    }
    ""
}

/// Returns the number of the line at which a text is rejected, or 0.
fn line_of(why: &NoProgram<'_>) -> usize {
    match why {
        NoProgram::Text(faulty) => faulty.line(),
        NoProgram::Named(unexpanded) => unexpanded.error.line,
        _ => 0,
    }
}

/// Returns the text with another line in the place of the rejected one, unless it can't be read without that.
fn repaired(
    alloc: Global,
    mended: &Mended<'_>,
    why: &NoProgram<'_>,
) -> Result<Option<Repair>, AllocError> {
    let text = mended.text.as_str();
    let number = line_of(why);
    let first = first_word(text, number);
    let other = match why {
        NoProgram::Text(faulty) => stand_in(first, word_after(text, number), faulty.fault),
        _ => Some(stand_in_of_name(first, word_after(text, number))),
    };
    let Some(other) = other else {
        return Ok(None);
    };
    let text = with_line(alloc, text, number, other)?;
    Ok(Some(Repair { number, text }))
}

/// Returns whether a line calls a procedure whose head was replaced.
fn calls_replaced(alloc: Global, mended: &Mended<'_>, number: usize) -> Result<bool, AllocError> {
    match called_head(alloc, mended.text.as_str(), number)? {
        Some(head) => Ok(mended.is_replaced(head)),
        None => Ok(false),
    }
}

/// Returns whether a text has names without a first line `names`: then each line that has one is wrong.
fn lacks_names(why: &NoProgram<'_>) -> bool {
    match why {
        NoProgram::Text(faulty) if faulty.plain.is_none() => {
            let line = line_numbered(faulty.text, faulty.line()).unwrap_or("");
            line.trim_ascii().starts_with("proc ") && line.contains("(")
        }
        _ => false,
    }
}

/// Returns whether a limit may only be passed because of replaced lines: an instruction or a procedure may be one of them.
fn limit_follows(mended: &Mended<'_>, faulty: &FaultyText<'_>) -> bool {
    match faulty.fault.due {
        Due::Procedure => true,
        Due::Instruction => mended.is_changed(faulty.line()),
        _ => false,
    }
}

/// Returns whether a fault may only follow from another line: a label that isn't found is in one, or the head of the called procedure was replaced.
fn fault_follows(
    alloc: Global,
    mended: &Mended<'_>,
    faulty: &FaultyText<'_>,
) -> Result<bool, AllocError> {
    let number = faulty.line();
    match faulty.fault.no {
        FaultNo::Word => Ok(
            first_word(faulty.text, number) == "regs" && mended.is_replaced_before(number),
        ),
        FaultNo::UnknownLabel | FaultNo::LabelNotForward => {
            let line = line_numbered(faulty.plain(), faulty.fault.line).unwrap_or("");
            let label = word_of(alloc, line.as_bytes(), faulty.fault.word)?;
            Ok(occurs_elsewhere(mended.written, number, label))
        }
        FaultNo::Operand if faulty.plain.is_some() => calls_replaced(alloc, mended, number),
        FaultNo::Limit => Ok(limit_follows(mended, faulty)),
        _ => Ok(false),
    }
}

/// Returns whether a name error may only follow from another line. An unknown name may be in one, or a replaced line may have named it otherwise.
/// Or a procedure's head is lost, or that of the called one was replaced.
fn name_follows(
    alloc: Global,
    mended: &Mended<'_>,
    unexpanded: &UnexpandedText<'_>,
) -> Result<bool, AllocError> {
    let NameError { no, line, word } = unexpanded.error;
    let is_told = match no {
        NameNo::Unknown(_) => occurs_elsewhere(mended.written, line, word),
        NameNo::Kind(_, _) => mended.defined(word),
        _ => mended.lacks_head(line),
    };
    if is_told {
        return Ok(true);
    }
    calls_replaced(alloc, mended, line)
}

/// Returns whether an error isn't to be added: it is the text's first one, or only follows from replaced lines.
fn follows(alloc: Global, mended: &Mended<'_>, why: &NoProgram<'_>) -> Result<bool, AllocError> {
    if mended.numbers.is_empty() {
        return Ok(true);
    }
    match why {
        NoProgram::Text(faulty) => fault_follows(alloc, mended, faulty),
        NoProgram::Named(unexpanded) => name_follows(alloc, mended, unexpanded),
        _ => Ok(true),
    }
}

/// Adds the verifier's errors of the procedures in which no line was replaced, unless a head was.
fn put_rejections(
    alloc: Global,
    details: &mut Details,
    mended: &Mended<'_>,
    read: ReadProgram<'_>,
) -> Result<(), AllocError> {
    let ReadProgram { program, source } = read;
    if mended.changed_heads() {
        return Ok(());
    }
    let Some(refused) = rejection_of(alloc, program)? else {
        return Ok(());
    };
    let changed = mended.changed_procedures(alloc)?;
    put_rejection(alloc, details, &source, &changed, &refused)?;
    put_others(alloc, details, &source, &changed, &refused)
}

/// Reads a text with replaced lines, adds its errors, and returns it with one more line replaced, unless nothing is left to be read.
fn read_again(
    alloc: Global,
    details: &mut Details,
    mended: &Mended<'_>,
) -> Result<Option<Repair>, AllocError> {
    match program_of_text(alloc, mended.text.as_str()) {
        Ok(read) => {
            put_rejections(alloc, details, mended, read)?;
            Ok(None)
        }
        Err(why) => {
            let failure = parse_failure(alloc, &why)?;
            if mended.is_replaced(line_of(&why)) {
                return Ok(None);
            }
            if !follows(alloc, mended, &why)? {
                let lines = parse_details(alloc, &why)?;
                details.add(alloc, failure, &lines)?;
            }
            if lacks_names(&why) {
                return Ok(None);
            }
            repaired(alloc, mended, &why)
        }
    }
}

/// Adds the errors of a text after its first. A long text has none, since each error costs a reading.
pub(crate) fn put_further(
    alloc: Global,
    details: &mut Details,
    text: &str,
) -> Result<(), AllocError> {
    if LONGEST < text.len() {
        return Ok(());
    }
    let mut mended = Mended {
        written: text,
        text: with_line(alloc, text, 0, "")?,
        numbers: Vec::new(alloc),
    };
    for _ in 0..READINGS {
        let Some(repair) = read_again(alloc, details, &mended)? else {
            return Ok(());
        };
        if details.is_full() {
            return Ok(());
        }
        mended.text = repair.text;
        mended.numbers.push(repair.number)?;
    }
    Ok(())
}
