//! The report of a run on the pool that is over, and the circle in which it is stuck.

ghost use Rattle.std.specs.Prelude.{◌≡◌, IfOk, option_map};
ghost use Rattle.tw_run_output.specs.Ends.{IsEndCircle, IsEndReport, IsReportAs, has_ended};

use crate::closing_text::closing_text;
use crate::finished_run::FinishedRun;
use std::alloc::{AllocError, Global};
use tw_pool::{Closing, Final};
use tw_report::{circle_of, put_report};
use tw_types::Link;

/// Returns whether a run is quiet or stuck: it wasn't stopped, by the host or at the limit.
fn has_ended(closing: Option<Closing>) -> bool
    ensures { result ≡ has_ended closing }
{
    match closing {
        Some(Closing::Quiet | Closing::Stuck(_)) => true,
        Some(Closing::Stopped | Closing::Limit) | None => false,
    }
}

/// Returns the circle of rules that wait for one another, if a run is stuck in one.
pub fn circle(alloc: Global, left: &Final) -> Result<Option<Vec<Link>>, AllocError>
    ensures { IfOk result (λ found. IsEndCircle left.now (option_map (λ v. v.items) found)) }
{
    if !has_ended(left.closing()) {
        return Ok(None);
    }
    let rules = left.pending(alloc)?;
    circle_of(alloc, &rules)
}

/// Returns the report of a run that ended so.
pub fn report_as(alloc: Global, left: &Final, over: Option<Closing>) -> Result<Vec<u8>, AllocError>
    ensures { IfOk result (λ text. IsReportAs left.now over text.items) }
{
    let mut text = Vec::new(alloc);
    let closing = closing_text(alloc, over, circle(alloc, left)?)?;
    put_report(&mut text, &FinishedRun { of: left }, &closing)?;
    Ok(text)
}

/// Returns the report of a run that is over.
pub fn report(alloc: Global, left: &Final) -> Result<Vec<u8>, AllocError>
    ensures { IfOk result (λ text. IsEndReport left.now text.items) }
{
    report_as(alloc, left, left.closing())
}
