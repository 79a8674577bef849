//! The place of an instruction, as text and as JSON.

ghost use Rattle.std.specs.Prelude.{◌≡◌, IfOk, List};
ghost use Rattle.tw_code.specs.declared.procedure.Procedure.{Procedure};
ghost use Rattle.tw_program_output.specs.Place.{IsPlaced, placed_line};
ghost use Rattle.tw_source.specs.Source.{MayBeSourceAt, text_of};
ghost use Rattle.tw_writer.specs.Appended.{IsAppended};

use crate::rows::{Cell, Shown, row_object};
use std::alloc::{AllocError, Global};
use tw_json_output::ObjectWriter;
use tw_source::{SourceText, put_place_line};
use tw_writer::{Piece, Writer};

/// Adds a line with a place, between these texts.
fn put_placed<'a>(out: &mut Writer, head: &'a str, procedure: usize, place: usize, tail: &'a str)
    ensures { IsAppended out.old out.new (placed_line head.now procedure place tail.now) }
{
    out.put_all(&[
        Piece::Text(head),
        Piece::Number(procedure),
        Piece::Text(" at place "),
        Piece::Number(place),
        Piece::Text(tail),
    ]);
}

/// Returns such a line, and the place's line of the text if there is a text.
pub(crate) fn placed_text(
    alloc: Global,
    source: &Option<SourceText<'_>>,
    head: &str,
    procedure: usize,
    place: usize,
    tail: &str,
) -> Result<Vec<u8>, AllocError>
    ensures { (program : List Procedure) → MayBeSourceAt source.now program procedure place
        → IfOk result (λ text. IsPlaced (text_of source.now) (placed_line head.now procedure place tail.now) procedure place text.items) }
{
    let mut text = Writer::new(alloc);
    put_placed(&mut text, head, procedure, place, tail);
    put_place_line(alloc, &mut text.bytes, source, procedure, place)?;
    text.finish()
}

/// Adds such a line, and the place's line of the text if there is a text.
pub(crate) fn put_placed_text(
    out: &mut Writer,
    source: &Option<SourceText<'_>>,
    head: &str,
    procedure: usize,
    place: usize,
    tail: &str,
) {
    match placed_text(out.alloc, source, head, procedure, place, tail) {
        Ok(text) => out.put_bytes(&text),
        Err(_) => out.fail(),
    }
}

/// Returns the object of a place.
pub(crate) fn place_object(alloc: Global, procedure: usize, place: usize) -> ObjectWriter {
    row_object(
        alloc,
        &[
            Cell::new("procedure", "", Shown::Number(procedure as u64)),
            Cell::new("place", "", Shown::Number(place as u64)),
        ],
    )
}
