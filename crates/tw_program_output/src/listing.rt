//! Disassembly of a program, and its listing by `--places`.

ghost use Rattle.std.specs.Prelude.{◌<◌, ◌^◌, IfOk};
ghost use Rattle.std.specs.List.{AllByRecursion};
ghost use Rattle.tw_code.specs.format.Program.{IsInstr, IsProcedure};
ghost use Rattle.tw_program_output.specs.Listing.{IsDisassembly};
ghost use Rattle.tw_visible.specs.Visible.{HidesNothing};

use std::alloc::{AllocError, Global};
use tw_asm::{LabelPlaces, disassemble, put_head_lines, put_right};
use tw_code::{Instr, Procedure, Program};
use tw_order::Places;
use tw_symbols::{RightNames, put_named};
use tw_types::{Items, Param};
use tw_verify::{RightType, Typing};
use tw_visible::{columns, visible_bytes};
use tw_writer::{Piece, Writer};

/// The number of columns for a place.
const PLACE_COLUMNS: usize = 5;

/// The number of columns for an instruction that has something beside it.
const TEXT_COLUMNS: usize = 30;

/// Adds a place, right-aligned in its columns.
fn put_place(out: &mut Writer, place: usize) {
    match format!(in out.alloc; "{place}") {
        Ok(digits) => out.put_all(&[
            Piece::Spaces(PLACE_COLUMNS.saturating_sub(digits.len())),
            Piece::Text(&digits),
            Piece::Text("  "),
        ]),
        Err(_) => out.fail(),
    }
}

/// Adds a register of this name with what it holds.
fn put_right_column(out: &mut Writer, name: &[u8], register: u8, right: RightType) {
    let held = Param {
        mode: right.mode(),
        ty: right.ty(),
    };
    let mut text = Vec::new(out.alloc);
    let written = put_right(&mut text, register, held);
    out.note(written);
    out.put("  ");
    let named = put_named(&mut out.bytes, &text, name);
    out.note(named);
}

/// Writes what all right registers hold, with their names.
fn rights_of(out: &Writer, names: &RightNames<'_>, typing: &Typing) -> Writer {
    let mut text = Writer::new(out.alloc);
    for register in 0..16u8 {
        if let Some(right) = typing.right_at(register) {
            let name = names.name(usize::from(register));
            put_right_column(&mut text, name, register, right);
        }
    }
    text
}

/// Adds, beside a text of so many columns, what the right registers hold, if any does.
fn put_beside(out: &mut Writer, width: usize, rights: &Writer) {
    out.note_of(rights);
    if !rights.bytes.is_empty() {
        out.put_all(&[
            Piece::Spaces(TEXT_COLUMNS.saturating_sub(width)),
            Piece::Bytes(&rights.bytes),
        ]);
    }
}

/// Adds, beside a text, what the right registers of these names hold.
fn put_rights(out: &mut Writer, names: &RightNames<'_>, text: &[u8], typing: &Typing) {
    let rights = rights_of(out, names, typing);
    match columns(out.alloc, text) {
        Ok(width) => put_beside(out, width, &rights),
        Err(_) => out.fail(),
    }
}

/// Adds the line of an instruction with its place, and beside it what is known of the right registers of these names.
pub(crate) fn put_code_line(
    out: &mut Writer,
    names: &RightNames<'_>,
    place: usize,
    text: &[u8],
    typings: &[Typing],
) {
    put_place(out, place);
    out.put_bytes(text);
    if let Some(typing) = typings.get(place) {
        put_rights(out, names, text, typing);
    }
    out.put("\n");
}

/// Adds the line of the instruction at a place.
fn put_place_line(
    out: &mut Writer,
    labels: &LabelPlaces,
    place: usize,
    instr: &Instr,
    typings: &[Typing],
)
    requires place { place < 2 ^ 63 }
    requires instr { IsInstr instr.now }
{
    match labels.instr_text(out.alloc, place, instr) {
        Ok(text) => put_code_line(out, &RightNames::none(), place, &text, typings),
        Err(_) => out.fail(),
    }
}

/// Adds the label at a place, if there is one.
fn put_label(out: &mut Writer, labels: &LabelPlaces, place: usize) {
    let done = labels.put_line(out.alloc, &mut out.bytes, place);
    out.note(done);
}

/// Adds the lines of a procedure's code.
fn put_place_lines(out: &mut Writer, labels: &LabelPlaces, code: &[Instr], typings: &[Typing])
    requires { AllByRecursion IsInstr code.now }
{
    for (place, instr) in code.iter().enumerate() {
        put_label(out, labels, place);
        put_place_line(out, labels, place, instr, typings);
    }
    put_label(out, labels, code.len());
}

/// Adds a procedure's code, with the labels between its lines.
fn put_code(out: &mut Writer, procedure: &Procedure, typings: &[Typing])
    requires { IsProcedure procedure.now }
{
    match LabelPlaces::new(out.alloc, procedure.code.as_slice()) {
        Ok(labels) => put_place_lines(out, &labels, procedure.code.as_slice(), typings),
        Err(_) => out.fail(),
    }
}

/// Adds the number of a procedure, before its lines.
pub(crate) fn put_number(out: &mut Writer, number: usize) {
    out.put_numbered("procedure ", number);
    out.put("\n");
}

/// Adds the listing of a procedure.
fn put_procedure(out: &mut Writer, number: usize, procedure: &Procedure, typings: &[Typing])
    requires { IsProcedure procedure.now }
{
    put_number(out, number);
    let done = put_head_lines(&mut out.bytes, procedure);
    out.note(done);
    put_code(out, procedure, typings);
}

/// Returns the typings that are known of a procedure; none if there is no such procedure.
pub(crate) fn typings_at(all: &[Items<Typing>], procedure: usize) -> &[Typing] {
    match all.get(procedure) {
        Some(typings) => typings.as_slice(),
        None => &[],
    }
}

/// Returns the listing of a program, with these typings of its procedures.
pub(crate) fn typed_text(
    alloc: Global,
    program: &Program,
    all: &[Items<Typing>],
) -> Result<Vec<u8>, AllocError>
    ensures { IfOk result (λ listing. HidesNothing listing.items) }
{
    let mut text = Writer::new(alloc);
    for (number, procedure) in program.procedures().iter().enumerate() {
        put_procedure(&mut text, number, procedure, typings_at(all, number));
    }
    let listing = text.finish()?;
    visible_bytes(alloc, &listing)
}

/// Returns a program's assembly text, or its listing if that is requested.
pub fn disassembled(alloc: Global, places: Places, program: &Program) -> Result<Vec<u8>, AllocError>
    ensures { IfOk result (λ text. IsDisassembly places program.now text.items) }
{
    match places {
        Places::Hidden => match disassemble(alloc, program) {
            Ok(text) => Ok(text.into_bytes()),
            Err(_) => Err(AllocError),
        },
        Places::Shown => typed_text(alloc, program, &[]),
    }
}
