//! Prints what is requested of a check, after the budgets and the needs: as lines of text, and as members of an object.

ghost use Rattle.std.specs.Prelude.{IfOk};
ghost use Rattle.tw_program_output.specs.Check.{MayHaveMore};

use crate::answer::CheckAnswer;
use crate::bounds::{put_bounds, put_found};
use crate::event_order::{put_order, put_order_line};
use std::alloc::{AllocError, Global};
use tw_json_output::ObjectWriter;
use tw_order::CheckLines;
use tw_source::SourceText;
use tw_writer::Writer;

/// Returns the lines about what was found.
fn found_lines(
    alloc: Global,
    source: &Option<SourceText<'_>>,
    requested: CheckLines,
    answer: &CheckAnswer,
) -> Result<Vec<u8>, AllocError> {
    let mut out = Writer::new(alloc);
    put_bounds(&mut out, source, requested.bounds, answer);
    put_order_line(&mut out, source, answer.insertion);
    out.finish()
}

/// Returns the lines about what is requested.
pub(crate) fn requested_lines(
    alloc: Global,
    source: &Option<SourceText<'_>>,
    requested: CheckLines,
    answer: &CheckAnswer,
) -> Result<Vec<u8>, AllocError>
    ensures { IfOk result (λ text. MayHaveMore requested text.items) }
{
    if requested == CheckLines::NONE {
        Ok(Vec::new(alloc))
    } else {
        found_lines(alloc, source, requested, answer)
    }
}

/// Adds what is requested, as members: also the listing.
pub(crate) fn put_requested(alloc: Global, object: &mut ObjectWriter, answer: &CheckAnswer) {
    if let Some(text) = &answer.listing {
        object.put_lines("listing", text);
    }
    if let Some(found) = &answer.bounds {
        put_found(alloc, object, found);
    }
    put_order(alloc, object, answer.insertion);
}
