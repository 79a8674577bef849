//! Output of `check --order`: whether the order of events may show in outputs.

ghost use Rattle.std.specs.Prelude.{◌≡◌, ◌++◌, IfOk, List, OnOk, ℕ};
ghost use Rattle.serde_json.specs.View.{view};
ghost use Rattle.tw_code.specs.declared.instr.Instr.{Instr};
ghost use Rattle.tw_code.specs.declared.procedure.Procedure.{Procedure};
ghost use Rattle.tw_copies.specs.Copies.{IsAt};
ghost use Rattle.tw_program_output.specs.EventOrder.{insertion_line, order_json};
ghost use Rattle.tw_program_output.specs.Place.{IsPlaced};
ghost use Rattle.tw_source.specs.Source.{MayBeSource, text_of};
ghost use Rattle.tw_source.specs.Text.{IsPlaceText};

use crate::place::{place_object, placed_text, put_placed_text};
use serde_json::{Value as Json, json};
use std::alloc::{AllocError, Global};
use tw_copies::CopyInsertion;
use tw_json_output::ObjectWriter;
use tw_source::SourceText;
use tw_writer::Writer;

/// The words before the place of an insertion that may show the order.
const MAY_SHOW: &str = "order may show in procedure ";

/// Returns the line of an insertion that may show the order, and the insertion's line of the text if there is a text.
fn insertion_text(
    alloc: Global,
    source: &Option<SourceText<'_>>,
    at: CopyInsertion,
) -> Result<Vec<u8>, AllocError>
    ensures { (program : List Procedure) → MayBeSource source.now program → (i : Instr) → IsAt program at.procedure at.place i
        → IfOk result (λ text. IsPlaced (text_of source.now) (insertion_line at) at.procedure at.place text.items) }
{
    placed_text(alloc, source, MAY_SHOW, at.procedure, at.place, "\n")
}

/// Adds that line, and the insertion's line of the text if there is a text.
pub fn put_insertion(
    alloc: Global,
    out: &mut Vec<u8>,
    source: &Option<SourceText<'_>>,
    insertion: CopyInsertion,
) -> Result<(), AllocError>
    ensures { (program : List Procedure) → MayBeSource source.now program → (i : Instr) → IsAt program insertion.procedure insertion.place i
        → OnOk result ((more : List ℕ) × IsPlaceText (text_of source.now) insertion.procedure insertion.place more × (out.new.items ≡ out.old.items ++ (insertion_line insertion ++ more))) }
{
    let text = insertion_text(alloc, source, insertion)?;
    out.extend_from_slice(&text)
}

/// Adds the line about the order of events, if there is an answer.
pub(crate) fn put_order_line(
    out: &mut Writer,
    source: &Option<SourceText<'_>>,
    answer: Option<Option<CopyInsertion>>,
) {
    match answer {
        Some(Some(at)) => put_placed_text(out, source, MAY_SHOW, at.procedure, at.place, "\n"),
        Some(None) => out.put("order same\n"),
        None => {}
    }
}

// ---- JSON

/// Returns the word `same`, or the place of the insertion.
pub fn order_value(alloc: Global, found: Option<CopyInsertion>) -> Result<Json, AllocError>
    ensures { IfOk result (λ value. view value ≡ order_json found) }
{
    match found {
        Some(at) => {
            json!(in alloc; {"place": at.place as u64, "procedure": at.procedure as u64})
        }
        None => Json::try_from_str(alloc, "same"),
    }
}

/// Adds the word `same`, or the place of the insertion, if there is an answer.
pub(crate) fn put_order(
    alloc: Global,
    object: &mut ObjectWriter,
    answer: Option<Option<CopyInsertion>>,
) {
    match answer {
        Some(Some(at)) => {
            object.put_object("order", place_object(alloc, at.procedure, at.place))
        }
        Some(None) => object.put_word("order", "same"),
        None => {}
    }
}
