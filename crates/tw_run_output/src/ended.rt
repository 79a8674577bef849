//! Output of a run that is over.

ghost use Rattle.std.specs.Prelude.{◌≡◌, ◌++◌, ℕ, List, Option, None, Some, IfOk, OnOk, codes, decimal, true};
ghost use Rattle.serde_json.specs.Data as json;
ghost use Rattle.tw_types.specs.Outcome.{Went};
ghost use Rattle.tw_code.specs.machine.Bounds.{AreBelow, opening_bound};
ghost use Rattle.tw_code.specs.machine.Inputs.{AreInputsOf};
ghost use Rattle.tw_code.specs.machine.Opening.{reached};
ghost use Rattle.tw_code.specs.machine.State.{State as MachineState};
ghost use Rattle.tw_certificate.specs.FirstContest.{IsFirstContest};
ghost use Rattle.tw_copies.specs.declared.check.CopyInsertion.{CopyInsertion as Insertion};
ghost use Rattle.tw_machine.specs.Opening.{rejection_of};
ghost use Rattle.tw_run_output.specs.Ends.{IsReportAs};
ghost use Rattle.tw_run_output.specs.EventOrder.{order_line};
ghost use Rattle.tw_run_output.specs.Json.{AreEndMembers, IsEndLine};
ghost use Rattle.tw_run_output.specs.Over.{IsBegun, IsFinished, IsRunOver};
ghost use Rattle.tw_source.specs.Reply.{reply};
ghost use Rattle.tw_run_output.specs.Run.{AreReportedDetails, AreRunDetails, IsRunOutput, IsRunText, begins, close_of, limit_details, trace_text};
ghost use Rattle.tw_timeline.specs.Xml.{IsPrinted, IsXml};
ghost use Rattle.tw_source.specs.Source.{MayBeSource, text_of};

use crate::end_report::report_as;
use crate::event_order::{order_line, put_order};
use crate::json::end_line;
use crate::run_details::{put_closing_details, put_run_details};
use std::alloc::{AllocError, Global};
use tw_code::Program;
use tw_machine::Plain;
use tw_order::{EventRange, RunAnswer, RunOrder};
use tw_pool::{Closing, Final, History};
use tw_replay_output::{budgets_of, count, draw, put_bytes};
use tw_report::{put, put_event_line, put_numbered};
use tw_source::{Close, Reply, SourceText, symbols_of};
use tw_types::Event;
use tw_verify::Verified;

/// Returns how a session ends after a run that ended so.
fn close_of(closing: Closing) -> Close
    ensures { result ≡ close_of closing }
{
    match closing {
        Closing::Quiet => Close::Success,
        Closing::Stuck(_) => Close::Stuck,
        Closing::Limit | Closing::Stopped => Close::Limit,
    }
}

/// Returns the events of a trace, in their order.
pub fn events_of(alloc: Global, history: &History) -> Result<Vec<Event>, AllocError>
    ensures { IfOk result (λ events. events.items ≡ history.now.events) }
{
    let mut events = Vec::new(alloc);
    for index in 0..history.len() {
        events.push(history.event(index))?;
    }
    Ok(events)
}

/// Adds the lines of the events, if they are requested.
fn put_trace(out: &mut Vec<u8>, asked: bool, history: &History) -> Result<(), AllocError>
    ensures { OnOk result (out.new.items ≡ out.old.items ++ trace_text asked history.now.events) }
{
    if !asked {
        return Ok(());
    }
    put(out, "events\n")?;
    for index in 0..history.len() {
        put_event_line(out, &history.event(index))?;
    }
    put(out, "end\n")
}

/// Returns the trace: a line for each event, between `events` and `end`.
pub fn trace(alloc: Global, history: &History) -> Result<Vec<u8>, AllocError>
    ensures { IfOk result (λ text. text.items ≡ trace_text true history.now.events) }
{
    let mut text = Vec::new(alloc);
    put_trace(&mut text, true, history)?;
    Ok(text)
}

/// Adds the line that says the limit, and the greatest one.
fn put_limit_line(out: &mut Vec<u8>, events: usize) -> Result<(), AllocError>
    ensures { OnOk result (out.new.items ≡ out.old.items ++ (codes "events " ++ (decimal events ++ codes "; --limit takes up to 1000000\n"))) }
{
    put_numbered(out, "events ", events)?;
    put(out, "; --limit takes up to 1000000\n")
}

/// Adds the line after `limit`, if the program was read from a text.
fn put_limit(
    out: &mut Vec<u8>,
    source: &Option<SourceText<'_>>,
    order: &RunOrder,
    closing: Closing,
) -> Result<(), AllocError>
    ensures { OnOk result (out.new.items ≡ out.old.items ++ limit_details (text_of source.now) order.now closing) }
{
    match source {
        Some(_) => match closing {
            Closing::Limit => put_limit_line(out, order.options.limit.events()),
            Closing::Quiet | Closing::Stuck(_) | Closing::Stopped => Ok(()),
        },
        None => Ok(()),
    }
}

/// The reference machine at the start of a run, and the run's events.
#[derive(Drop)]
pub struct Begun {
    pub first: Plain,
    pub events: Vec<Event>,
}

/// Returns the reference machine at the start of a run.
fn first_machine(alloc: Global, order: &RunOrder, program: Program) -> Result<Plain, AllocError>
    requires { rejection_of program.procedures order.now.inputs ≡ None }
    ensures first { IfOk result (λ plain. plain ≡ begins program.version program.procedures order.now) }
    ensures below { IfOk result (λ plain. AreBelow opening_bound plain.state) }
{
    match Plain::open(
        alloc,
        program,
        order.inputs.as_slice(),
        order.options.layout,
    ) {
        Ok(plain) => Ok(plain),
        Err(_) => Err(AllocError),
    }
}

/// Begins a replay of a run.
pub fn begin(
    alloc: Global,
    order: &RunOrder,
    verified: Verified,
    history: &History,
) -> Result<Begun, AllocError>
    requires { IsFinished verified.program order.now history.now.events }
    ensures { IfOk result (IsBegun verified.program order.now history.now.events) }
{
    // For their clauses alone: they hold for an accepted program's procedures, and bound the events of a run.
    let _procedures = verified.program().procedures();
    let _most = order.options.limit.events();
    let events = events_of(alloc, history)?;
    let first = first_machine(alloc, order, verified.into_program())?;
    Ok(Begun { first, events })
}

/// Adds the statistics of the events, and the lines after them.
fn put_run_numbers(
    alloc: Global,
    out: &mut Vec<u8>,
    source: &Option<SourceText<'_>>,
    order: &RunOrder,
    verified: Verified,
    history: &History,
    closing: Closing,
) -> Result<(), AllocError>
    requires finished { IsFinished verified.program order.now history.now.events }
    requires source { MayBeSource source.now verified.program }
    ensures { OnOk result ((s : MachineState) → reached verified.program order.now.inputs order.now.options.layout history.now.events ≡ Went s
        → (numbers : List ℕ) × (more : List ℕ) × AreReportedDetails (text_of source.now) verified.program order.now history.now.events s closing more × (out.new.items ≡ out.old.items ++ (numbers ++ more))) }
{
    let budgets = budgets_of(alloc, &verified)?;
    let names = symbols_of(alloc, source)?;
    let Begun { first, events } = begin(alloc, order, verified, history)?;
    match count(alloc, first, &events)? {
        Ok(counted) => {
            let numbers = counted
                .stats
                .text(alloc, &counted.replaying.plain, &names, &budgets)?;
            put_bytes(out, &numbers)?;
            put_closing_details(alloc, out, source, &counted.replaying, closing)
        }
        Err(_) => unreachable!(),
    }
}

/// Returns the words on how a run was cut off, if it was.
fn cut_words(closing: Closing) -> Option<&'static str> {
    match closing {
        Closing::Limit => Some("ended by limit"),
        Closing::Stopped => Some("stopped"),
        Closing::Quiet | Closing::Stuck(_) => None,
    }
}

/// Adds the timeline of the events in this range.
fn put_run_picture(
    alloc: Global,
    out: &mut Vec<u8>,
    source: &Option<SourceText<'_>>,
    shown: EventRange,
    order: &RunOrder,
    verified: Verified,
    history: &History,
    closing: Closing,
) -> Result<(), AllocError>
    requires { IsFinished verified.program order.now history.now.events }
    ensures { OnOk result ((picture : List ℕ) × IsXml picture × IsPrinted picture × (out.new.items ≡ out.old.items ++ picture)) }
{
    let names = symbols_of(alloc, source)?;
    let Begun { first, events } = begin(alloc, order, verified, history)?;
    let drawn = draw(alloc, shown, names, first, &events, cut_words(closing))?;
    put_bytes(out, &drawn.text)
}

/// Adds the report, and the line after `limit`.
fn put_run_report(
    alloc: Global,
    out: &mut Vec<u8>,
    source: &Option<SourceText<'_>>,
    order: &RunOrder,
    outcome: &Final,
    closing: Closing,
) -> Result<(), AllocError>
    ensures { OnOk result ((printed : List ℕ) × IsReportAs outcome.now (Some closing) printed
        × (out.new.items ≡ out.old.items ++ (printed ++ limit_details (text_of source.now) order.now closing))) }
{
    let printed = report_as(alloc, outcome, Some(closing))?;
    put_bytes(out, &printed)?;
    put_limit(out, source, order, closing)
}

/// Adds the run as a JSON line.
fn put_json(
    alloc: Global,
    out: &mut Vec<u8>,
    outcome: &Final,
    history: &History,
    cut: u64,
    closing: Closing,
) -> Result<(), AllocError>
    ensures { OnOk result ((line : List ℕ) × IsEndLine outcome.now history.now.events cut closing line × (out.new.items ≡ out.old.items ++ line)) }
{
    let line = end_line(alloc, outcome, history, cut, closing)?;
    put_bytes(out, line.as_bytes())
}

/// Adds the run as a JSON line with its order.
fn put_order_json(
    alloc: Global,
    out: &mut Vec<u8>,
    order: &RunOrder,
    verified: &Verified,
    outcome: &Final,
    history: &History,
    cut: u64,
    closing: Closing,
) -> Result<(), AllocError>
    requires { IsFinished verified.now.program order.now history.now.events }
    ensures { OnOk result ((found : Option Insertion) × (members : json.Members) × IsFirstContest verified.now.program order.now.inputs order.now.options.layout history.now.events found
        × AreEndMembers outcome.now history.now.events cut closing members × (out.new.items ≡ out.old.items ++ order_line closing found members)) }
{
    let line = order_line(alloc, order, verified, outcome, history, cut, closing)?;
    put_bytes(out, line.as_bytes())
}

/// Adds the requested output, and the lines at the end.
fn put_outcome(
    alloc: Global,
    out: &mut Vec<u8>,
    source: &Option<SourceText<'_>>,
    order: &RunOrder,
    verified: Verified,
    outcome: &Final,
    history: &History,
    cut: u64,
    closing: Closing,
) -> Result<(), AllocError>
    requires finished { IsFinished verified.program order.now history.now.events }
    requires source { MayBeSource source.now verified.program }
    ensures { OnOk result ((over : IsRunOver verified.program order.now outcome.now history.now.events closing)
        → (lines : List ℕ) × IsRunOutput order.now.options.answer (text_of source.now) verified.program order.now history.now.events cut over.state closing lines × (out.new.items ≡ out.old.items ++ lines)) }
{
    match order.options.answer {
        RunAnswer::Report => {
            put_run_report(alloc, out, source, order, outcome, closing)?;
            put_run_details(alloc, out, source, order, verified, history, closing)
        }
        RunAnswer::Numbers => {
            put_run_report(alloc, out, source, order, outcome, closing)?;
            put_run_numbers(alloc, out, source, order, verified, history, closing)
        }
        RunAnswer::Order => {
            put_run_report(alloc, out, source, order, outcome, closing)?;
            put_order(alloc, out, source, order, verified, history, closing)
        }
        RunAnswer::Json => put_json(alloc, out, outcome, history, cut, closing),
        RunAnswer::OrderJson => {
            put_order_json(alloc, out, order, &verified, outcome, history, cut, closing)
        }
        RunAnswer::Picture(shown) => {
            put_run_picture(alloc, out, source, shown, order, verified, history, closing)
        }
    }
}

/// Returns the reply to `run` after the run is over, with the local instructions of tasks that were cut off.
pub fn ended_reply(
    alloc: Global,
    source: &Option<SourceText<'_>>,
    order: &RunOrder,
    verified: Verified,
    outcome: &Final,
    history: &History,
    cut: u64,
    closing: Closing,
) -> Result<Reply, AllocError>
    requires inputs { AreInputsOf verified.program order.now.inputs }
    requires over { IsRunOver verified.program order.now outcome.now history.now.events closing }
    requires source { MayBeSource source.now verified.program }
    ensures { IfOk result (λ r. (over : IsRunOver verified.program order.now outcome.now history.now.events closing) → (printed : List ℕ) × (more : List ℕ)
        × IsRunText order.now.options.answer (text_of source.now) verified.program order.now history.now.events cut over.state closing printed
        × AreRunDetails order.now.options.answer (text_of source.now) verified.program order.now history.now.events over.state closing more
        × (reply r.text.items r.close ≡ reply (trace_text order.now.options.trace history.now.events ++ (printed ++ more)) (close_of closing))) }
{
    let mut text = Vec::new(alloc);
    put_trace(&mut text, order.options.trace, history)?;
    put_outcome(
        alloc, &mut text, source, order, verified, outcome, history, cut, closing,
    )?;
    Ok(Reply {
        text,
        close: close_of(closing),
        more: None,
    })
}
