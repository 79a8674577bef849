//! Programs from assembly text.

ghost use Rattle.tw_asm.specs.Answers.{IsAssembled, IsLined};

use crate::fault::AsmFault;
use crate::line_numbers::{LineNumbers, line_numbers};
use crate::link::link;
use crate::reading::read_text;
use std::alloc::Global;
use tw_code::Program;

/// A program, and the line of the text from which each instruction comes.
#[derive(Drop)]
pub struct LinedProgram {
    pub program: Program,
    pub lines: LineNumbers,
}

/// Assembles a text into its program with line numbers, or returns the first fault. Use it if messages about the program have to name lines of the
/// text.
pub fn assemble_lined(alloc: Global, text: &str) -> Result<LinedProgram, AsmFault>
    ensures { IsLined text.now result }
{
    let unlinked = read_text(alloc, text)?;
    let lines = line_numbers(alloc, &unlinked.sections)?;
    let procedures = link(alloc, unlinked.sections)?;
    Ok(LinedProgram {
        program: Program::new(unlinked.version, procedures),
        lines,
    })
}

/// Assembles a text into its program, or returns the first fault of the text.
pub fn assemble(alloc: Global, text: &str) -> Result<Program, AsmFault>
    ensures { IsAssembled text.now result }
{
    let lined = assemble_lined(alloc, text)?;
    Ok(lined.program)
}
