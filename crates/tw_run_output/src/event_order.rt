//! Output of `run --order`: whether the order of events may show in the outputs of a run.

ghost use Rattle.std.specs.Prelude.{◌≡◌, ◌++◌, ℕ, List, Option, None, Some, IfOk, OnOk, string_bytes};
ghost use Rattle.serde_json.specs.Data as json;
ghost use Rattle.serde_json.specs.View.{view};
ghost use Rattle.tw_code.specs.declared.procedure.Procedure.{Procedure};
ghost use Rattle.tw_types.specs.Outcome.{Went};
ghost use Rattle.tw_code.specs.machine.Opening.{reached};
ghost use Rattle.tw_code.specs.machine.State.{State};
ghost use Rattle.tw_copies.specs.declared.check.CopyInsertion.{CopyInsertion as Insertion};
ghost use Rattle.tw_certificate.specs.FirstContest.{IsFirstContest, MayBeInsertion};
ghost use Rattle.tw_source.specs.Source.{MayBeSource, text_of};
ghost use Rattle.tw_run_output.specs.EventOrder.{IsOrderText, calm_line, end_order_json, is_cut, order_line};
ghost use Rattle.tw_run_output.specs.Json.{AreEndMembers};
ghost use Rattle.tw_run_output.specs.Over.{IsFinished};
ghost use Rattle.tw_run_output.specs.Run.{AreReportedDetails};

use crate::ended::events_of;
use crate::json::end_members;
use crate::run_details::put_run_details;
use serde_json::Value as Json;
use std::alloc::{AllocError, Global};
use tw_certificate::first_contest;
use tw_copies::CopyInsertion;
use tw_json_output::line_of;
use tw_order::RunOrder;
use tw_pool::{Closing, Final, History};
use tw_program_output::{order_value, put_insertion};
use tw_report::put;
use tw_source::SourceText;
use tw_verify::Verified;

/// Returns whether the run was ended before it ended by itself.
fn is_cut(closing: Closing) -> bool
    ensures { result ≡ is_cut closing }
{
    match closing {
        Closing::Quiet | Closing::Stuck(_) => false,
        Closing::Stopped | Closing::Limit => true,
    }
}

/// Returns the line of a run that contests no insertion.
fn calm_line(closing: Closing) -> &'static str
    ensures { result.now ≡ calm_line closing }
{
    if is_cut(closing) {
        "order may show after the last event\n"
    } else {
        "order same\n"
    }
}

/// Adds the line of the first contested insertion, or that of a run without one.
fn put_answer(
    alloc: Global,
    out: &mut Vec<u8>,
    source: &Option<SourceText<'_>>,
    closing: Closing,
    found: Option<CopyInsertion>,
) -> Result<(), AllocError>
    ensures { (program : List Procedure) → MayBeSource source.now program → MayBeInsertion program found
        → OnOk result ((lines : List ℕ) × IsOrderText (text_of source.now) closing found lines × (out.new.items ≡ out.old.items ++ lines)) }
{
    match found {
        Some(insertion) => put_insertion(alloc, out, source, insertion),
        None => put(out, calm_line(closing)),
    }
}

/// Returns the first contested insertion of a run, if there is one.
fn contest_in(
    alloc: Global,
    order: &RunOrder,
    verified: &Verified,
    history: &History,
) -> Result<Option<CopyInsertion>, AllocError>
    requires { IsFinished verified.now.program order.now history.now.events }
    ensures first { IfOk result (IsFirstContest verified.now.program order.now.inputs order.now.options.layout history.now.events) }
    ensures there { IfOk result (MayBeInsertion verified.now.program) }
{
    // For its clauses alone: they bound the events of a run.
    let _most = order.options.limit.events();
    let events = events_of(alloc, history)?;
    first_contest(
        alloc,
        verified,
        order.inputs.as_slice(),
        order.options.layout,
        &events,
    )
}

/// Adds whether the order may show, and the lines after that.
pub(crate) fn put_order(
    alloc: Global,
    out: &mut Vec<u8>,
    source: &Option<SourceText<'_>>,
    order: &RunOrder,
    verified: Verified,
    history: &History,
    closing: Closing,
) -> Result<(), AllocError>
    requires finished { IsFinished verified.program order.now history.now.events }
    requires source { MayBeSource source.now verified.program }
    ensures { OnOk result ((s : State) → reached verified.program order.now.inputs order.now.options.layout history.now.events ≡ Went s
        → (found : Option Insertion) × (lines : List ℕ) × (more : List ℕ) × IsFirstContest verified.program order.now.inputs order.now.options.layout history.now.events found
        × IsOrderText (text_of source.now) closing found lines × AreReportedDetails (text_of source.now) verified.program order.now history.now.events s closing more × (out.new.items ≡ out.old.items ++ (lines ++ more))) }
{
    let found = contest_in(alloc, order, &verified, history)?;
    put_answer(alloc, out, source, closing, found)?;
    put_run_details(alloc, out, source, order, verified, history, closing)
}

// ---- JSON

/// Returns the value for a run that contests no insertion: the word `same`, or null if the run was cut off.
fn calm_value(alloc: Global, closing: Closing) -> Result<Json, AllocError>
    ensures { IfOk result (λ value. view value ≡ end_order_json closing None) }
{
    if is_cut(closing) {
        Ok(Json::Null)
    } else {
        order_value(alloc, None)
    }
}

/// Returns the place of the insertion, or the value for a run without one.
fn answer_value(
    alloc: Global,
    closing: Closing,
    found: Option<CopyInsertion>,
) -> Result<Json, AllocError>
    ensures { IfOk result (λ value. view value ≡ end_order_json closing found) }
{
    match found {
        Some(insertion) => order_value(alloc, Some(insertion)),
        None => calm_value(alloc, closing),
    }
}

/// Returns the JSON line of a finished run with its order.
pub(crate) fn order_line(
    alloc: Global,
    order: &RunOrder,
    verified: &Verified,
    left: &Final,
    history: &History,
    cut: u64,
    closing: Closing,
) -> Result<String, AllocError>
    requires { IsFinished verified.now.program order.now history.now.events }
    ensures { IfOk result (λ line. (found : Option Insertion) × (members : json.Members) × IsFirstContest verified.now.program order.now.inputs order.now.options.layout history.now.events found
        × AreEndMembers left.now history.now.events cut closing members × (string_bytes line ≡ order_line closing found members)) }
{
    let found = contest_in(alloc, order, verified, history)?;
    let answer = answer_value(alloc, closing, found)?;
    let mut members = end_members(alloc, left, history, cut, closing)?;
    serde_json::put(&mut members, alloc, "order", answer)?;
    line_of(alloc, &Json::Object(members))
}
