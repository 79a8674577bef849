//! The place of a rejected procedure, with what is known of it.

ghost use Rattle.std.specs.Prelude.{◌≡◌};

use tw_asm::LineNumbers;
use tw_code::{Instr, Procedure};
use tw_verify::Typing;
use tw_writer::Writer;

/// A place of a rejected procedure.
#[derive(Clone, Copy)]
pub(crate) struct Place<'a> {
    pub(crate) lines: &'a LineNumbers,
    /// The number of the written line for each line of the text, if that is an expanded one.
    pub(crate) written: &'a [usize],
    pub(crate) procedures: &'a [Procedure],
    pub(crate) number: usize,
    pub(crate) procedure: &'a Procedure,
    pub(crate) place: usize,
    pub(crate) instr: &'a Instr,
    /// The content of the right registers at each place that the verifier reached.
    pub(crate) typings: &'a [Typing],
}

impl<'a> Place<'a> {
    /// Returns the procedure's code.
    pub(crate) fn code(&self) -> &'a [Instr]
        ensures { result.now ≡ self.now.procedure.now.code }
    {
        self.procedure.code.as_slice()
    }

    /// Adds the line of the text from which the instruction at another place comes; if it isn't known, adds the place.
    pub(crate) fn put_other(&self, out: &mut Writer, place: usize) {
        let Some(line) = self.lines.at(self.number, place) else {
            return out.put_numbered("place ", place);
        };
        let written = self.written.get(line.saturating_sub(1)).copied();
        out.put_numbered("line ", written.unwrap_or(line));
    }
}
