//! Expansion of one line.

use crate::assigned::{add_const, add_let};
use crate::instruction::put_instruction;
use crate::line_kind::{LineKind, kind_of};
use crate::listed::{put_head, put_registers};
use crate::names::Names;
use crate::operand_text::put_all;
use crate::pieces::pieces_of;
use crate::procedures::Procedures;
use crate::rejection::Rejection;
use std::alloc::Global;

/// Adds the expansion of the words after the first of a head, a line `regs` or an instruction.
fn put_pieces<'a>(
    alloc: Global,
    kind: LineKind,
    procedures: &Procedures<'_>,
    number: usize,
    names: &mut Names<'a>,
    out: &mut Vec<u8>,
    words: &[&'a [u8]],
) -> Result<(), Rejection<'a>> {
    let pieces = pieces_of(alloc, words)?;
    match kind {
        LineKind::Head => put_head(alloc, procedures, number, names, out, &pieces),
        LineKind::Registers => put_registers(procedures, names, out, &pieces),
        LineKind::Instruction(opcode) => {
            put_instruction(alloc, procedures, names, out, opcode, &pieces)
        }
        _ => Ok(()),
    }
}

/// Adds the expansion of the words of the line of this number, and its names.
pub fn put_line<'a>(
    alloc: Global,
    procedures: &Procedures<'_>,
    number: usize,
    names: &mut Names<'a>,
    out: &mut Vec<u8>,
    words: &[&'a [u8]],
) -> Result<(), Rejection<'a>> {
    let [first, others @ ..] = words else {
        return Ok(());
    };
    match kind_of(first, others) {
        LineKind::Names => Ok(()),
        LineKind::Constant => add_const(procedures, names, first, others),
        LineKind::Let => add_let(procedures, names, first, others),
        LineKind::Other => {
            out.extend_from_slice(first)?;
            put_all(out, others)?;
            Ok(())
        }
        kind => {
            out.extend_from_slice(first)?;
            put_pieces(alloc, kind, procedures, number, names, out, others)
        }
    }
}
