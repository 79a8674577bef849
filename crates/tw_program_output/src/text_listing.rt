//! Output of `check --places`: a program's listing, by its text's own lines if it was read from a text.

ghost use Rattle.std.specs.Prelude.{IfOk};
ghost use Rattle.tw_visible.specs.Visible.{HidesNothing};

use crate::listing::{put_code_line, put_number, typed_text, typings_at};
use std::alloc::{AllocError, Global};
use std::str::Lines;
use tw_code::Program;
use tw_diagnostics::{LineRole, line_role};
use tw_source::SourceText;
use tw_symbols::{RightNames, is_written};
use tw_types::Items;
use tw_verify::{Refused, Typing, Verified};
use tw_visible::visible_bytes;
use tw_writer::{Piece, Writer};

/// How many procedures have begun, and how many instructions the last of them has.
#[derive(Clone, Copy)]
struct Counts {
    procedures: usize,
    instructions: usize,
}

impl Counts {
    /// Returns the counts after a line with this role. No text of a program has so many that they saturate.
    fn advanced(self, says: LineRole) -> Counts {
        match says {
            LineRole::Head => Counts {
                procedures: self.procedures.saturating_add(1),
                instructions: 0,
            },
            LineRole::Code => Counts {
                procedures: self.procedures,
                instructions: self.instructions.saturating_add(1),
            },
            _ => self,
        }
    }
}

/// Adds a line with this role, if the lines before it have these counts. After the number of a procedure comes the line that begins it; an
/// instruction has its place, and what the right registers hold there.
fn put_role_line(
    out: &mut Writer,
    names: &RightNames<'_>,
    all: &[Items<Typing>],
    counts: Counts,
    line: &str,
    says: LineRole,
) {
    match says {
        LineRole::Code => {
            let typings = typings_at(all, counts.procedures.saturating_sub(1));
            put_code_line(out, names, counts.instructions, line.as_bytes(), typings);
        }
        LineRole::Head => {
            put_number(out, counts.procedures);
            out.put_all(&[Piece::Text(line), Piece::Text("\n")]);
        }
        _ => out.put_all(&[Piece::Text(line), Piece::Text("\n")]),
    }
}

/// Returns the next written line, if a line of the text in which names are replaced is that of one.
fn next_written<'a>(source: &SourceText<'_>, lines: &mut Lines<'a>, own: &str) -> Option<&'a str> {
    if source.plain.is_none() || is_written(own) {
        lines.next()
    } else {
        None
    }
}

/// Returns the lines of a text as they are written, with the place of each instruction, and what is known of the right registers there, by name if the
/// text has names. The expanded lines give their roles.
fn said_text(
    alloc: Global,
    source: &SourceText<'_>,
    all: &[Items<Typing>],
) -> Result<Vec<u8>, AllocError>
    ensures { IfOk result (λ listing. HidesNothing listing.items) }
{
    let mut names = RightNames::of(alloc, source.text)?;
    let mut out = Writer::new(alloc);
    let mut counts = Counts {
        procedures: 0,
        instructions: 0,
    };
    let mut lines = source.text.lines();
    let mut number = 0usize;
    for own in source.plain().lines() {
        let says = line_role(alloc, own)?;
        if let Some(line) = next_written(source, &mut lines, own) {
            number = number.saturating_add(1);
            names.read(alloc, number, line)?;
            put_role_line(&mut out, &names, all, counts, line, says);
        }
        counts = counts.advanced(says);
    }
    let listing = out.finish()?;
    visible_bytes(alloc, &listing)
}

/// Returns a copy of typings.
fn copied(alloc: Global, typings: &[Typing]) -> Result<Items<Typing>, AllocError> {
    let mut own = Vec::new(alloc);
    own.extend_from_slice(typings)?;
    Ok(Items::from(own))
}

/// Returns the typings of each procedure of an accepted program.
fn accepted_typings(alloc: Global, verified: &Verified) -> Result<Vec<Items<Typing>>, AllocError> {
    let mut all = Vec::new(alloc);
    for number in 0..verified.program().procedures().len() {
        all.push(copied(alloc, verified.typings(number))?)?;
    }
    Ok(all)
}

/// Returns what is known of each procedure of a rejected program.
fn refused_typings(alloc: Global, refused: &Refused) -> Result<Vec<Items<Typing>>, AllocError> {
    let mut all = Vec::new(alloc);
    for number in 0..refused.program.procedures().len() {
        all.push(refused.typings(alloc, number)?)?;
    }
    Ok(all)
}

/// Returns the listing of a program with these typings of its procedures; of its text's lines, if it was read from a text.
fn listed(
    alloc: Global,
    source: &Option<SourceText<'_>>,
    program: &Program,
    all: &[Items<Typing>],
) -> Result<Vec<u8>, AllocError>
    ensures { IfOk result (λ listing. HidesNothing listing.items) }
{
    match source {
        Some(source) => said_text(alloc, source, all),
        None => typed_text(alloc, program, all),
    }
}

/// Returns the listing of an accepted program.
pub(crate) fn accepted_listing(
    alloc: Global,
    source: &Option<SourceText<'_>>,
    verified: &Verified,
) -> Result<Vec<u8>, AllocError>
    ensures { IfOk result (λ listing. HidesNothing listing.items) }
{
    let all = accepted_typings(alloc, verified)?;
    listed(alloc, source, verified.program(), &all)
}

/// Returns the listing of a rejected program.
pub(crate) fn refused_listing(
    alloc: Global,
    source: &Option<SourceText<'_>>,
    refused: &Refused,
) -> Result<Vec<u8>, AllocError>
    ensures { IfOk result (λ listing. HidesNothing listing.items) }
{
    let all = refused_typings(alloc, refused)?;
    listed(alloc, source, &refused.program, &all)
}
