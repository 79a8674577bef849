//! The lines of a text from which the instructions of its program come.

ghost use Rattle.std.specs.Prelude.{◌≡◌, IfOk, map};
ghost use Rattle.tw_asm.specs.Origins.{at_place};
ghost use Rattle.tw_asm.specs.reading.Progress.{seen_section, section_numbers};

use crate::reading::Section;
use std::alloc::{AllocError, Global};
use tw_types::Items;

/// The line of each instruction of a program, counted from 1 over all lines of the text.
#[derive(Drop)]
pub struct LineNumbers {
    procedures: Items<Items<usize>>,
}

impl LineNumbers {
    /// Returns the line of the instruction at a place of a procedure, both counted from 0.
    pub fn at(&self, procedure: usize, place: usize) -> Option<usize>
        ensures { result ≡ at_place self.now.procedures procedure place }
    {
        let numbers = self.procedures.as_slice().get(procedure)?;
        numbers.as_slice().get(place).copied()
    }
}

/// Returns the lines of the instructions of a procedure.
fn numbers_of(alloc: Global, section: &Section<'_>) -> Result<Items<usize>, AllocError>
    ensures { IfOk result (λ numbers. numbers ≡ section_numbers (seen_section section.now)) }
{
    let mut numbers = Vec::new(alloc);
    for line in &section.drafts {
        numbers.push(line.number)?;
    }
    Ok(Items::from(numbers))
}

/// Returns the lines of the instructions of all procedures.
pub fn line_numbers(alloc: Global, sections: &[Section<'_>]) -> Result<LineNumbers, AllocError>
    ensures { IfOk result (λ lines. lines.procedures ≡ map section_numbers (map seen_section sections.now)) }
{
    let mut procedures = Vec::new(alloc);
    for section in sections {
        procedures.push(numbers_of(alloc, section)?)?;
    }
    Ok(LineNumbers {
        procedures: Items::from(procedures),
    })
}
