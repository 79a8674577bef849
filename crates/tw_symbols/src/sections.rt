//! An expansion in the making.

use crate::literals::{put_fillings, put_types};
use crate::names::Names;
use crate::operand_text::put_ended;
use std::alloc::{AllocError, Global};

/// An expansion in the making. The lines after a line `regs` are kept apart up to the next head or line `regs`: only there all their literals are known.
#[derive(Drop)]
pub struct Sections<'a> {
    whole: Vec<u8>,
    /// The lines that aren't in the whole yet.
    lines: Vec<u8>,
    /// The bytes after the words of the line `regs`, if lines are kept apart.
    after_types: Option<&'a [u8]>,
}

/// Returns what follows the spaces and tabs at the start.
fn without_blanks(bytes: &[u8]) -> &[u8] {
    let mut rest = bytes;
    while let [b' ' | b'\t', others @ ..] = rest {
        rest = others;
    }
    rest
}

impl<'a> Sections<'a> {
    /// Makes an expansion without lines.
    pub fn new(alloc: Global) -> Sections<'a> {
        Sections {
            whole: Vec::new(alloc),
            lines: Vec::new(alloc),
            after_types: None,
        }
    }

    /// Returns the lines to which the next one is added.
    pub fn lines(&mut self) -> &mut Vec<u8> {
        &mut self.lines
    }

    /// Adds the end of a line whose words were added. A line that has none doesn't begin with a blank.
    pub fn end_line(&mut self, rest: &[u8]) -> Result<(), AllocError> {
        match self.lines.last() {
            Some(byte) if *byte != b'\n' => put_ended(&mut self.lines, rest),
            _ => put_ended(&mut self.lines, without_blanks(rest)),
        }
    }

    /// Adds the lines so far, of which the last is a line `regs` without its end, and keeps those after it apart.
    pub fn open(&mut self, rest: &'a [u8]) -> Result<(), AllocError> {
        self.whole.extend_from_slice(&self.lines)?;
        self.lines.clear();
        self.after_types = Some(rest);
        Ok(())
    }

    /// Adds the lines that were kept apart, after those that fill the hidden registers.
    pub fn close(&mut self, names: &Names<'_>) -> Result<(), AllocError> {
        if let Some(rest) = self.after_types {
            put_types(&mut self.whole, &names.literals)?;
            put_ended(&mut self.whole, rest)?;
            put_fillings(&mut self.whole, names.first.unwrap_or(0), &names.literals)?;
        }
        self.whole.extend_from_slice(&self.lines)?;
        self.lines.clear();
        self.after_types = None;
        Ok(())
    }

    /// Returns the text of all procedures that were closed.
    pub fn into_text(self) -> Vec<u8> {
        self.whole
    }
}
