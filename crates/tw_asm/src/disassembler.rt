//! The text of a program.

ghost use Rattle.std.specs.Prelude.{◌≡◌, ◌<◌, ◌++◌, ◌+◌, ◌^◌, IfOk, OnOk, string_bytes};
ghost use Rattle.std.specs.List.{AllByRecursion, flat_map};
ghost use Rattle.std.specs.Option.{option_and_then};
ghost use Rattle.tw_code.specs.format.Program.{IsInstr, IsProcedure};
ghost use Rattle.tw_asm.specs.Disassembly.{code_lines, disassembly, label_at, label_line, label_places, procedure_lines, version_line};
ghost use Rattle.tw_asm.specs.Spelling.{EncodesProgram};
ghost use Rattle.tw_asm.specs.Parts.{skip_of};
ghost use Rattle.tw_asm.specs.Statement.{Code};
ghost use Rattle.tw_asm.specs.Written.{goal_word, line_of};

use crate::skip::skip_of;
use crate::write::{Lines, put_head, put_instr, put_label, put_registers, put_version};
use indexmap::IndexSet;
use std::alloc::{AllocError, Global};
use tw_code::{Instr, NoMemory, Procedure, Program, Version};

/// Returns the places of the labels of a procedure's code, in the order in which they are first named.
pub fn label_places(alloc: Global, code: &[Instr]) -> Result<IndexSet<usize>, AllocError>
    ensures { IfOk result (λ places. places.keys ≡ label_places code.now) }
{
    let mut places = IndexSet::new(alloc);
    for (place, instr) in code.iter().enumerate() {
        if let Some(skip) = skip_of(instr) {
            let goal = place + 1 + usize::from(skip);
            if goal <= code.len() {
                places.insert(goal)?;
            }
        }
    }
    Ok(places)
}

/// Returns the number of the label at a place, if there is one.
fn label_at(places: &IndexSet<usize>, place: usize) -> Option<usize>
    ensures { result ≡ label_at places.now.keys place }
{
    places.get_index_of(&place)
}

/// Adds the line of the label at a place, if there is one.
fn put_label_at(lines: &mut Lines, places: &IndexSet<usize>, place: usize) -> Result<(), AllocError>
    ensures { OnOk result (lines.new.out.items ≡ lines.old.out.items ++ label_line (label_at places.now.keys place)) }
{
    match label_at(places, place) {
        Some(number) => put_label(&mut lines.out, number),
        None => Ok(()),
    }
}

/// Returns the number of the label to which the instruction at a place may skip, if there is one.
fn goal_label(places: &IndexSet<usize>, place: usize, instr: &Instr) -> Option<usize>
    requires { place < 2 ^ 63 }
    ensures { result ≡ option_and_then (λ skip. label_at places.now.keys (place + 1 + skip)) (skip_of instr.now) }
{
    match skip_of(instr) {
        Some(skip) => label_at(places, place + 1 + usize::from(skip)),
        None => None,
    }
}

/// Adds the line of the instruction at a place. `places` are the places of the procedure's labels.
pub fn put_instr_at(
    lines: &mut Lines,
    places: &IndexSet<usize>,
    place: usize,
    instr: &Instr,
) -> Result<(), AllocError>
    requires place { place < 2 ^ 63 }
    requires instr { IsInstr instr.now }
    ensures { OnOk result (lines.new.out.items ≡ lines.old.out.items
        ++ line_of (λ skip. goal_word (label_at places.now.keys (place + 1 + skip)) skip) (Code instr.now)) }
{
    put_instr(lines, instr, goal_label(places, place, instr))
}

/// Adds the lines of a procedure's code, with the labels at these places.
fn put_code(lines: &mut Lines, places: &IndexSet<usize>, code: &[Instr]) -> Result<(), AllocError>
    requires { AllByRecursion IsInstr code.now }
    ensures { OnOk result (lines.new.out.items ≡ lines.old.out.items ++ code_lines places.now.keys 0 code.now) }
{
    for (place, instr) in code.iter().enumerate() {
        put_label_at(lines, places, place)?;
        put_instr_at(lines, places, place, instr)?;
    }
    put_label_at(lines, places, code.len())
}

/// Adds the lines of a procedure.
fn put_procedure(lines: &mut Lines, procedure: &Procedure) -> Result<(), AllocError>
    requires { IsProcedure procedure.now }
    ensures { OnOk result (lines.new.out.items ≡ lines.old.out.items ++ procedure_lines procedure.now) }
{
    let places = label_places(lines.alloc, procedure.code.as_slice())?;
    put_head(&mut lines.out, procedure.kind, procedure.params.as_slice())?;
    put_registers(&mut lines.out, procedure.registers.as_slice())?;
    put_code(lines, &places, procedure.code.as_slice())
}

/// Adds the lines of the procedures in their order.
fn put_procedures(lines: &mut Lines, procedures: &[Procedure]) -> Result<(), AllocError>
    requires { AllByRecursion IsProcedure procedures.now }
    ensures { OnOk result (lines.new.out.items ≡ lines.old.out.items ++ flat_map procedure_lines procedures.now) }
{
    for procedure in procedures {
        put_procedure(lines, procedure)?;
    }
    Ok(())
}

/// Returns the line of the version, if it isn't the first, and the lines of the procedures.
fn lines_of(
    alloc: Global,
    version: Version,
    procedures: &[Procedure],
) -> Result<Vec<u8>, AllocError>
    requires { AllByRecursion IsProcedure procedures.now }
    ensures { IfOk result (λ out. out.items ≡ version_line version ++ flat_map procedure_lines procedures.now) }
{
    let mut lines = Lines::new(alloc);
    put_version(&mut lines.out, version)?;
    put_procedures(&mut lines, procedures)?;
    Ok(lines.out)
}

/// Returns the canonical text of a program. `assemble` returns the same program for it.
pub fn disassemble(alloc: Global, program: &Program) -> Result<String, NoMemory>
    ensures text { IfOk result (λ text. string_bytes text ≡ disassembly program.now) }
    ensures spells { IfOk result (λ text. EncodesProgram program.now (string_bytes text)) }
{
    let out = lines_of(alloc, program.version(), program.procedures())?;
    match String::from_utf8(out) {
        Ok(text) => Ok(text),
        Err(_) => unreachable!(),
    }
}
