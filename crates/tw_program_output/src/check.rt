//! Output of `check` about a program.

ghost use Rattle.std.specs.Prelude.{◌≡◌, IfOk, map, option_map};
ghost use Rattle.tw_code.specs.accepting.WellTyped.{IsFirstRejection};
ghost use Rattle.tw_program_output.specs.Check.{IsCheckText, IsInForm, IsPrinted, RepliesByCheck, check_text, listing_text, needs_cells, needs_line, procedure_cells, procedure_line, procedure_lines, searches_line, shown_names};
ghost use Rattle.tw_program_output.specs.Rejection.{MayBeBefore, RepliesByRejection, rejection};
ghost use Rattle.tw_program_output.specs.Rows.{cell_of};
ghost use Rattle.tw_source.specs.Failure.{after};
ghost use Rattle.tw_source.specs.Reply.{reply};
ghost use Rattle.tw_source.specs.Source.{MayBeSource, text_of};
ghost use Rattle.tw_symbols.specs.Symbols.{name_at};
ghost use Rattle.tw_verify.specs.Rejection.{verify_error_code};
ghost use Rattle.tw_writer.specs.Appended.{IsAppended};

use crate::acceptance::{Admitted, admit};
use crate::answer::{CheckAnswer, ProcedureRow, check_answer, kind_word};
use crate::check_json::check_line;
use crate::requested::requested_lines;
use crate::rows::{Cell, Shown, put_line};
use crate::text_listing::refused_listing;
use std::alloc::{AllocError, Global};
use tw_code::Program;
use tw_order::{CheckOrder, Form, Places};
use tw_source::{
    Close, Failure, Reply, SourceText, put_failure_line, rejection_errors, rejection_failure,
    rejection_line,
};
use tw_symbols::Symbols;
use tw_verify::{Refused, Verified};
use tw_writer::Writer;

/// Adds the listing, if there is one.
fn put_listing(out: &mut Writer, listing: &Option<Vec<u8>>)
    ensures { IsAppended out.old out.new (listing_text (option_map (λ t. t.items) listing.now)) }
{
    match listing {
        Some(text) => out.put_bytes(text),
        None => {}
    }
}

/// Returns the number, kind, budget and name of a procedure.
pub(crate) fn procedure_cells<'a>(names: &'a Symbols, row: ProcedureRow) -> [Cell<'a>; 4]
    ensures { map cell_of result ≡ procedure_cells (name_at names.entry.now row.number) row }
{
    [
        Cell::new("procedure", "proc ", Shown::Number(row.number as u64)),
        Cell::new("kind", " ", Shown::Word(kind_word(row.kind))),
        Cell::new("budget", " budget ", Shown::Number(row.budget)),
        Cell::new("name", "", Shown::Name(names.procedure(row.number))),
    ]
}

/// Returns what the targets need.
pub(crate) fn needs_cells(needs: (u8, u8)) -> [Cell<'static>; 2]
    ensures { map cell_of result ≡ needs_cells needs.0 needs.1 }
{
    let (engines, workers) = (u64::from(needs.0), u64::from(needs.1));
    [
        Cell::new("engines", "needs engines ", Shown::Number(engines)),
        Cell::new("workers", " workers ", Shown::Number(workers)),
    ]
}

/// Adds the line of a procedure.
fn put_procedure_line(out: &mut Writer, names: &Symbols, row: ProcedureRow)
    ensures { IsAppended out.old out.new (procedure_line (name_at names.now row.number) row) }
{
    put_line(out, &procedure_cells(names, row));
}

/// Adds the lines of the procedures.
fn put_procedure_lines(out: &mut Writer, names: &Symbols, answer: &CheckAnswer)
    ensures { IsAppended out.old out.new (procedure_lines names.now answer.now.procedures.items) }
{
    for row in &answer.procedures {
        put_procedure_line(out, names, *row);
    }
}

/// Adds the lines of the procedures, with their names if the program is listed.
fn put_budgets(alloc: Global, out: &mut Writer, places: Places, answer: &CheckAnswer)
    ensures { IsAppended out.old out.new (procedure_lines (shown_names places answer.now.names) answer.now.procedures.items) }
{
    match places {
        Places::Hidden => put_procedure_lines(out, &Symbols::none(alloc), answer),
        Places::Shown => put_procedure_lines(out, &answer.names, answer),
    }
}

/// Adds the line with what the targets need.
fn put_needs(out: &mut Writer, needs: (u8, u8))
    ensures { IsAppended out.old out.new (needs_line needs.0 needs.1) }
{
    put_line(out, &needs_cells(needs));
}

/// Adds the line with how many procedures have a search, if any has.
fn put_searches(out: &mut Writer, searching: usize)
    ensures { IsAppended out.old out.new (searches_line searching) }
{
    if searching == 0 {
        return;
    }
    put_line(
        out,
        &[Cell::new("searches", "searches ", Shown::Number(searching as u64))],
    );
}

/// Returns the lines of an answer, with these about what is requested.
fn answer_text(
    alloc: Global,
    order: &CheckOrder,
    answer: &CheckAnswer,
    more: &[u8],
) -> Result<Vec<u8>, AllocError>
    ensures { IfOk result (λ text. text.items ≡ check_text order.now answer.now more.now) }
{
    let mut text = Writer::new(alloc);
    put_listing(&mut text, &answer.listing);
    text.put("accepted\n");
    put_budgets(alloc, &mut text, order.places, answer);
    put_needs(&mut text, answer.needs);
    put_searches(&mut text, answer.searching);
    text.put_bytes(more);
    text.finish()
}

/// Returns the text of an answer about the program of this text.
fn check_text(
    alloc: Global,
    source: &Option<SourceText<'_>>,
    order: &CheckOrder,
    answer: &CheckAnswer,
) -> Result<Vec<u8>, AllocError>
    ensures { IfOk result (λ text. IsCheckText order.now answer.now text.items) }
{
    let more = requested_lines(alloc, source, order.lines, answer)?;
    answer_text(alloc, order, answer, &more)
}

/// Returns an answer about an accepted program in the requested form.
fn answer_in_form(
    alloc: Global,
    source: &Option<SourceText<'_>>,
    order: &CheckOrder,
    verified: &Verified,
    answer: &CheckAnswer,
) -> Result<Vec<u8>, AllocError>
    ensures { IfOk result (λ text. IsInForm order.now.form order.now answer.now text.items) }
{
    match order.form {
        Form::Text => check_text(alloc, source, order, answer),
        Form::Json => check_line(alloc, order, verified, answer),
    }
}

/// Returns the output of a check of an accepted program, in the requested form.
fn requested_text(
    alloc: Global,
    source: &Option<SourceText<'_>>,
    order: CheckOrder,
    verified: &Verified,
) -> Result<Vec<u8>, AllocError>
    ensures { IfOk result (λ text. IsPrinted order verified.now.program text.items) }
{
    let answer = check_answer(alloc, source, &order, verified)?;
    answer_in_form(alloc, source, &order, verified, &answer)
}

/// Verifies a program, and returns the reply to its check.
pub fn checked_reply(
    alloc: Global,
    source: &Option<SourceText<'_>>,
    order: CheckOrder,
    program: Program,
) -> Result<Reply, AllocError>
    requires { MayBeSource source.now program.procedures }
    ensures { IfOk result (λ r. RepliesByCheck order (text_of source.now) program.procedures (reply r.text.items r.close)) }
{
    match admit(
        alloc,
        source,
        order.places,
        order.limit,
        order.caps,
        program,
    )? {
        Admitted::Run(verified) => Ok(Reply {
            text: requested_text(alloc, source, order, &verified)?,
            close: Close::Success,
            more: None,
        }),
        Admitted::Rejected(reply) => Ok(reply),
    }
}

/// Returns what precedes an error: the listing, if it is requested.
fn text_before(
    alloc: Global,
    source: &Option<SourceText<'_>>,
    places: Places,
    refused: &Refused,
) -> Result<Vec<u8>, AllocError>
    ensures { IfOk result (λ text. MayBeBefore places text.items) }
{
    match places {
        Places::Hidden => Ok(Vec::new(alloc)),
        Places::Shown => refused_listing(alloc, source, refused),
    }
}

/// Returns the error of a program that isn't accepted, after so many bytes of a listing.
fn failure_at(refused: &Refused, line: Option<usize>, before: usize) -> Failure
    ensures { result ≡ after before (rejection refused.now.no refused.now.procedure refused.now.place line) }
{
    let mut failure = rejection_failure(refused, line);
    failure.before = before;
    failure
}

/// Returns the reply to a program that isn't accepted.
pub(crate) fn rejection_reply(
    alloc: Global,
    source: &Option<SourceText<'_>>,
    places: Places,
    refused: &Refused,
) -> Result<Reply, AllocError>
    requires source { MayBeSource source.now refused.now.program.procedures }
    requires first { IsFirstRejection refused.now.program.procedures (verify_error_code refused.now.no) refused.now.procedure refused.now.place }
    ensures { IfOk result (λ r. RepliesByRejection places (text_of source.now) refused.now.program.procedures (reply r.text.items r.close)) }
{
    let mut text = text_before(alloc, source, places, refused)?;
    let before = text.len();
    let line = rejection_line(alloc, source, refused)?;
    let failure = failure_at(refused, line, before);
    put_failure_line(&mut text, failure)?;
    let details = rejection_errors(alloc, source, refused, line)?;
    details.reply_after(text, failure)
}
