//! The body of a procedure: labels, and instructions whose goals aren't resolved yet.

ghost use Rattle.std.specs.Prelude.{map, None};
ghost use Rattle.tw_asm.specs.Fault.{MayBegin};
ghost use Rattle.tw_asm.specs.Seen.{bytes_of};
ghost use Rattle.tw_asm.specs.Statement.{Code, Label};
ghost use Rattle.tw_asm.specs.declared.statement.First.TheVariants as expected;
ghost use Rattle.tw_asm.specs.reading.Progress.{LabelAdded, TakenStatement, WithDraft, WithLabel, seen_draft, seen_label, seen_reading, seen_section, seen_stage, stage_of};

use crate::fault::{AsmFault, FaultNo};
use crate::flaw::Due;
use crate::reading::{Labels, Reading, Section, Stage, UnlinkedLine};
use crate::statement::Unlinked;
use tw_code::Procedure;

/// Adds a label at a place, or returns a fault if its name has a place.
fn add_label<'a>(
    labels: &mut Labels<'a>,
    name: &'a [u8],
    place: usize,
    number: usize,
) -> Result<(), AsmFault>
    ensures { LabelAdded (map seen_label labels.old.entries) (map seen_label labels.new.entries) name.now place result number }
{
    match labels.insert(name, place)? {
        None => Ok(()),
        Some(_) => Err(AsmFault::new(FaultNo::LabelTwice, number, 1, Due::NewLabel)),
    }
}

/// Adds a label after the instructions so far.
fn with_label<'a>(section: &mut Section<'a>, number: usize, name: &'a [u8]) -> Result<(), AsmFault>
    ensures { WithLabel (seen_section section.old) (seen_section section.new) number name.now result }
{
    let place = section.drafts.len();
    add_label(&mut section.labels, name, place, number)
}

/// Adds an instruction, or returns a fault if there is no place left for it.
fn with_draft<'a>(section: &mut Section<'a>, line: UnlinkedLine<'a>) -> Result<(), AsmFault>
    ensures { WithDraft (seen_section section.old) (seen_section section.new) (seen_draft line.entry) result }
{
    if section.drafts.len() >= usize::from(Procedure::MAX_CODE) {
        return Err(AsmFault::new(FaultNo::Limit, line.number, 0, Due::Instructions));
    }
    section.drafts.push(line)?;
    Ok(())
}

/// Takes a label of the body.
pub(crate) fn take_label<'a>(
    mut reading: Reading<'a>,
    number: usize,
    name: &'a [u8],
) -> Result<Reading<'a>, AsmFault>
    ensures { MayBegin (stage_of (seen_stage reading.entry.stage)) expected.Body → TakenStatement (seen_reading reading.entry) number (record { statement = Label name.now; goal = None }) result }
{
    let Stage::InBody(section) = &mut reading.stage else {
        return Err(AsmFault::new(FaultNo::Word, number, 1, Due::Nothing));
    };
    with_label(section, number, name)?;
    Ok(reading)
}

/// Takes an instruction of the body.
pub(crate) fn take_draft<'a>(
    mut reading: Reading<'a>,
    number: usize,
    draft: Unlinked<'a>,
) -> Result<Reading<'a>, AsmFault>
    ensures { MayBegin (stage_of (seen_stage reading.entry.stage)) expected.Body → TakenStatement (seen_reading reading.entry) number (record { statement = Code draft.entry.instr; goal = bytes_of draft.entry.goal }) result }
{
    let Stage::InBody(section) = &mut reading.stage else {
        return Err(AsmFault::new(FaultNo::Word, number, 1, Due::Nothing));
    };
    with_draft(section, UnlinkedLine { draft, number })?;
    Ok(reading)
}
