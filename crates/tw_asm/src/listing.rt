//! The pieces of a procedure's text, for a listing that shows something next to each instruction.

ghost use Rattle.std.specs.Prelude.{◌≡◌, ◌<◌, ◌++◌, ◌^◌, IfOk, OnOk};
ghost use Rattle.tw_code.specs.format.Program.{IsInstr};
ghost use Rattle.tw_asm.specs.Disassembly.{label_at, label_line, label_places};
ghost use Rattle.tw_asm.specs.Listing.{head_lines, instr_text, right_text};

use crate::disassembler::{label_places, put_instr_at};
use crate::write::{Lines, put_head, put_label, put_param, put_registers};
use indexmap::IndexSet;
use std::alloc::{AllocError, Global};
use std::marker::Model;
use tw_code::{Instr, Procedure};
use tw_lexer::put_numbered;
use tw_types::Param;

/// The places of the labels of a procedure's code.
#[derive(Drop)]
pub struct LabelPlaces {
    places: IndexSet<usize>,
}

impl Model for LabelPlaces {
    ghost use Rattle.std.specs.Prelude.{List, ℕ};

    ghost Value = { List ℕ };

    ghost view = { λ l. l.places.keys };
}

impl LabelPlaces {
    /// Returns the labels that the disassembly of this code has.
    pub fn new(alloc: Global, code: &[Instr]) -> Result<LabelPlaces, AllocError>
        ensures { IfOk result (λ labels. labels ≡ label_places code.now) }
    {
        let places = label_places(alloc, code)?;
        Ok(LabelPlaces { places })
    }

    /// Adds the line of the label at a place, if there is one.
    pub fn put_line(&self, alloc: Global, out: &mut Vec<u8>, place: usize) -> Result<(), AllocError>
        ensures { OnOk result (out.new.items ≡ out.old.items ++ label_line (label_at self.now place)) }
    {
        match self.places.get_index_of(&place) {
            Some(number) => put_label(out, number),
            None => Ok(()),
        }
    }

    /// Returns the line of the instruction at a place, without its line feed. A skip to a label is written as its name.
    pub fn instr_text(
        &self,
        alloc: Global,
        place: usize,
        instr: &Instr,
    ) -> Result<Vec<u8>, AllocError>
        requires place { place < 2 ^ 63 }
        requires instr { IsInstr instr.now }
        ensures { IfOk result (λ text. text.items ≡ instr_text self.now place instr.now) }
    {
        let mut lines = Lines::new(alloc);
        put_instr_at(&mut lines, &self.places, place, instr)?;
        let mut text = lines.out;
        text.truncate(text.len() - 1);
        Ok(text)
    }
}

/// Adds the lines before a procedure's code.
pub fn put_head_lines(out: &mut Vec<u8>, procedure: &Procedure) -> Result<(), AllocError>
    ensures { OnOk result (out.new.items ≡ out.old.items ++ head_lines procedure.now) }
{
    put_head(out, procedure.kind, procedure.params.as_slice())?;
    put_registers(out, procedure.registers.as_slice())
}

/// Adds a right register and what it holds, written like a parameter.
pub fn put_right(out: &mut Vec<u8>, register: u8, held: Param) -> Result<(), AllocError>
    ensures { OnOk result (out.new.items ≡ out.old.items ++ right_text register held) }
{
    put_numbered(out, "d", usize::from(register))?;
    put_param(out, held)
}
