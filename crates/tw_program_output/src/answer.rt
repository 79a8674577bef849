//! The answer of a check about an accepted program, which text and JSON print.

ghost use Rattle.std.specs.Prelude.{◌≡◌, IfOk, option_map};
ghost use Rattle.tw_program_output.specs.Answer.{AreLimitedBy, AreRows, IsAnswer, IsFound, MayBeChecked, MayBeFound, MayBeListed, kind_word};

use crate::text_listing::accepted_listing;
use std::alloc::{AllocError, Global};
use tw_bounds::{Circle, LimitedBounds, RunBounds, circle_of_calls, limited_bounds, run_bounds};
use tw_copies::{CopyInsertion, first_copy_insertion};
use tw_order::{BoundsOf, CheckOrder, EventLimit, EventOrder, Places};
use tw_source::{SourceText, symbols_of};
use tw_symbols::Symbols;
use tw_types::Kind;
use tw_verify::Verified;

/// A procedure's number, kind and budget, which are printed.
#[derive(Clone, Copy)]
pub struct ProcedureRow {
    pub number: usize,
    pub kind: Kind,
    pub budget: u64,
}

/// The bounds of a program's runs.
#[derive(Drop)]
pub struct FoundBounds {
    pub bounds: RunBounds,
    /// A call to which main's calls lead, and which leads back to its own procedure, if there is one.
    pub circle: Option<Circle>,
    /// The bounds by the limit, if there is one.
    pub limited: Option<LimitedBounds>,
}

/// The findings of a check about an accepted program.
#[derive(Drop)]
pub struct CheckAnswer {
    /// The names that the text gives the procedures.
    pub names: Symbols,
    /// The listing, if it is requested.
    pub listing: Option<Vec<u8>>,
    pub procedures: Vec<ProcedureRow>,
    /// How many engines and workers the targets need.
    pub needs: (u8, u8),
    /// How many procedures have a search.
    pub searching: usize,
    /// The bounds, if they are requested.
    pub bounds: Option<FoundBounds>,
    /// The first insertion that may show the order of events, if that is requested.
    pub insertion: Option<Option<CopyInsertion>>,
}

/// Returns the word for a procedure's kind.
pub(crate) fn kind_word(kind: Kind) -> &'static str
    ensures { result.now ≡ kind_word kind }
{
    match kind {
        Kind::Control => "control",
        Kind::Leaf => "leaf",
    }
}

/// Returns the rows of the procedures.
fn procedure_rows(alloc: Global, verified: &Verified) -> Result<Vec<ProcedureRow>, AllocError>
    ensures { IfOk result (λ rows. AreRows 0 verified.now.program rows.items) }
{
    let mut rows = Vec::new(alloc);
    for (number, procedure) in verified.program().procedures().iter().enumerate() {
        let kind = procedure.kind;
        let budget = verified.budget(number);
        rows.push(ProcedureRow {
            number,
            kind,
            budget,
        })?;
    }
    Ok(rows)
}

/// Returns the listing, if it is requested.
fn requested_listing(
    alloc: Global,
    source: &Option<SourceText<'_>>,
    places: Places,
    verified: &Verified,
) -> Result<Option<Vec<u8>>, AllocError>
    ensures { IfOk result (λ text. MayBeListed places (option_map (λ t. t.items) text)) }
{
    match places {
        Places::Hidden => Ok(None),
        Places::Shown => {
            let text = accepted_listing(alloc, source, verified)?;
            Ok(Some(text))
        }
    }
}

/// Returns the bounds by a limit, if there is one.
fn limited_by(verified: &Verified, limit: Option<EventLimit>) -> Option<LimitedBounds>
    ensures { AreLimitedBy limit verified.now.program result }
{
    match limit {
        Some(limit) => Some(limited_bounds(verified, limit.events() as u32)),
        None => None,
    }
}

/// Returns the bounds of a program's runs.
fn all_bounds(
    alloc: Global,
    verified: &Verified,
    limit: Option<EventLimit>,
) -> Result<Option<FoundBounds>, AllocError>
    ensures { IfOk result (IsFound limit verified.now.program) }
{
    let bounds = run_bounds(alloc, verified)?;
    let circle = circle_of_calls(alloc, verified, &bounds)?;
    Ok(Some(FoundBounds {
        bounds,
        circle,
        limited: limited_by(verified, limit),
    }))
}

/// Returns the bounds of a program's runs, if they are requested.
fn found_bounds(
    alloc: Global,
    order: &CheckOrder,
    verified: &Verified,
) -> Result<Option<FoundBounds>, AllocError>
    ensures { IfOk result (MayBeFound order.now.lines.bounds order.now.limit verified.now.program) }
{
    match order.lines.bounds {
        BoundsOf::NoBounds => Ok(None),
        BoundsOf::OfMain | BoundsOf::OfEach => all_bounds(alloc, verified, order.limit),
    }
}

/// Returns the first insertion that may show the order of events, if it is requested.
fn found_insertion(
    alloc: Global,
    requested: EventOrder,
    verified: &Verified,
) -> Result<Option<Option<CopyInsertion>>, AllocError>
    ensures { IfOk result (MayBeChecked requested verified.now.program) }
{
    match requested {
        EventOrder::Ignored => Ok(None),
        EventOrder::Checked => {
            let found = first_copy_insertion(alloc, verified)?;
            Ok(Some(found))
        }
    }
}

/// Finds out about an accepted program what is requested.
pub(crate) fn check_answer(
    alloc: Global,
    source: &Option<SourceText<'_>>,
    order: &CheckOrder,
    verified: &Verified,
) -> Result<CheckAnswer, AllocError>
    ensures { IfOk result (IsAnswer order.now verified.now.program) }
{
    let insertion = found_insertion(alloc, order.lines.event_order, verified)?;
    let bounds = found_bounds(alloc, order, verified)?;
    let listing = requested_listing(alloc, source, order.places, verified)?;
    let names = symbols_of(alloc, source)?;
    Ok(CheckAnswer {
        procedures: procedure_rows(alloc, verified)?,
        needs: verified.needs(),
        searching: verified.searching(),
        names,
        listing,
        bounds,
        insertion,
    })
}
