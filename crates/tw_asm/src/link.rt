//! Links procedures: replaces labels by skips.

ghost use Rattle.std.specs.Prelude.{◌⊎◌, MatchResult, map};
ghost use Rattle.std.specs.List.{AllByRecursion, flat_map};
ghost use Rattle.tw_asm.specs.reading.Goals.{AreLinkedCode, AreLinkedProcedures, AreWithin, FirstUnlinked, HasLabelsWithin, goals_in, section_goals, IsLinkedInstr, IsLinkedSection, IsSkipTo};
ghost use Rattle.tw_asm.specs.reading.Progress.{IsMemory, seen_draft, seen_label, seen_section};

use crate::fault::{AsmFault, FaultNo};
use crate::flaw::Due;
use crate::reading::{Labels, Section, UnlinkedLine};
use crate::skip::with_skip;
use std::alloc::Global;
use tw_code::{Instr, Procedure};
use tw_types::Items;

/// Returns the number of instructions between the instruction at a place and a label. Returns a fault if there is no such label, or it isn't after
/// the instruction.
fn skip_to(labels: &Labels<'_>, place: usize, name: &[u8]) -> Result<u16, FaultNo>
    requires { AreWithin (map seen_label labels.now.entries) }
    ensures { IsSkipTo (map seen_label labels.now.entries) place name.now result }
{
    match labels.get(name) {
        None => Err(FaultNo::UnknownLabel),
        Some(at) => {
            if *at > place {
                Ok((*at - place - 1) as u16)
            } else {
                Err(FaultNo::LabelNotForward)
            }
        }
    }
}

/// Returns what is due in place of a label that has this fault.
fn label_due(no: FaultNo) -> Due {
    match no {
        FaultNo::LabelNotForward => Due::LaterLabel,
        _ => Due::Label,
    }
}

/// Links an instruction at a place: replaces its goal, if that is a label, by a skip.
fn link_instr(labels: &Labels<'_>, place: usize, line: UnlinkedLine<'_>) -> Result<Instr, AsmFault>
    requires { AreWithin (map seen_label labels.now.entries) }
    ensures { IsLinkedInstr (map seen_label labels.now.entries) place (seen_draft line.entry) result }
{
    let UnlinkedLine { draft, number } = line;
    match draft.goal {
        None => Ok(draft.instr),
        Some(name) => match skip_to(labels, place, name) {
            Ok(skip) => Ok(with_skip(draft.instr, skip)),
            Err(no) => Err(AsmFault::new(no, number, draft.last, label_due(no))),
        },
    }
}

/// Links the instructions of a procedure.
fn link_code(
    alloc: Global,
    labels: &Labels<'_>,
    drafts: Vec<UnlinkedLine<'_>>,
) -> Result<Vec<Instr>, AsmFault>
    requires { AreWithin (map seen_label labels.now.entries) }
    ensures { MatchResult result
        (λ code. AreLinkedCode (goals_in (map seen_label labels.now.entries) 0 (map seen_draft drafts.entry.items)) code.items)
        (λ f. IsMemory f ⊎ FirstUnlinked (goals_in (map seen_label labels.now.entries) 0 (map seen_draft drafts.entry.items)) f) }
{
    let mut code = Vec::new(alloc);
    for line in drafts {
        let instr = link_instr(labels, code.len(), line)?;
        code.push(instr)?;
    }
    Ok(code)
}

/// Links a procedure.
fn link_section(alloc: Global, section: Section<'_>) -> Result<Procedure, AsmFault>
    requires { AreWithin (map seen_label section.labels.entries) }
    ensures { IsLinkedSection (seen_section section.entry) result }
{
    let Section {
        kind,
        params,
        registers,
        labels,
        drafts,
    } = section;
    let code = link_code(alloc, &labels, drafts)?;
    Ok(Procedure {
        kind,
        params,
        registers,
        code: Items::from(code),
    })
}

/// Links all procedures, or returns the first goal that isn't a label after its instruction.
pub fn link(alloc: Global, sections: Vec<Section<'_>>) -> Result<Vec<Procedure>, AsmFault>
    requires { AllByRecursion HasLabelsWithin (map seen_section sections.items) }
    ensures { MatchResult result (λ procedures. AreLinkedProcedures (map seen_section sections.entry.items) procedures.items) (λ f. IsMemory f ⊎ FirstUnlinked (flat_map section_goals (map seen_section sections.entry.items)) f) }
{
    let mut procedures = Vec::new(alloc);
    for section in sections {
        let procedure = link_section(alloc, section)?;
        procedures.push(procedure)?;
    }
    Ok(procedures)
}
