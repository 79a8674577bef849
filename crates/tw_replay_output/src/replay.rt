//! Output of `replay` and `picture`.

ghost use Rattle.std.specs.Prelude.{◌≡◌, ◌≤◌, IfOk, length};
ghost use Rattle.tw_code.specs.machine.Bounds.{AreBelow, opening_bound};
ghost use Rattle.tw_code.specs.machine.State.{State};
ghost use Rattle.tw_instr.specs.Attempts.{IsStopped};
ghost use Rattle.tw_report.specs.History.{lines_in};
ghost use Rattle.tw_report.specs.Lines.{history_line, not_enabled_line, trap_line};
ghost use Rattle.tw_types.specs.Cause.{cause_number};
ghost use Rattle.tw_types.specs.Outcome.{Outcome};
ghost use Rattle.tw_replay_output.specs.Counted.{AreShort};
ghost use Rattle.tw_replay_output.specs.Stuck.{IsAnswerFrom};
ghost use Rattle.tw_source.specs.Failure.{coded, uncoded};
ghost use Rattle.tw_source.specs.declared.failure.Position.TheVariants as position;
ghost use Rattle.tw_source.specs.Source.{MayBeSource, text_of};
ghost use Rattle.tw_order.specs.declared.runs.Answer.TheVariants.{Report};
ghost use Rattle.tw_replay_output.specs.Replay.{ByOutcome, IsReplayed, RepliesByLines, after_event, close_of, state_reply};
ghost use Rattle.tw_source.specs.Reply.{Reply as AReply, reply};

use crate::drawn::draw;
use crate::numbers::{Budgeted, counted_reply, with_budgets};
use crate::replay_details::{unopened_reply, with_details, with_reason};
use crate::replaying::play;
use crate::state_json::json_reply;
use std::alloc::{AllocError, Global};
use tw_code::Program;
use tw_machine::{Plain, Stopped};
use tw_order::{Answer, ReplayOrder};
use tw_report::{
    HistoryFault, put_history_line, put_not_enabled_line, put_trap_line, read_history, report_state,
};
use tw_source::{Close, Failure, Position, Reply, SourceText, refused_by, symbols_of};
use tw_symbols::Symbols;
use tw_types::{Cause, Ending, Event};

/// Returns how a session ends, by the ending of its trace.
pub fn close_of(ending: Option<Ending>) -> Close
    ensures { result ≡ close_of ending }
{
    match ending {
        None | Some(Ending::Quiet) => Close::Success,
        Some(Ending::Stuck(_)) => Close::Stuck,
    }
}

/// Returns the report of the machine's state.
fn state_reply(alloc: Global, plain: &Plain) -> Result<Reply, AllocError>
    ensures { IfOk result (λ r. reply r.text.items r.close ≡ state_reply plain.now.program plain.now.state) }
{
    let close = close_of(plain.ending());
    let text = report_state(alloc, plain)?;
    Ok(Reply {
        text,
        close,
        more: None,
    })
}

/// Returns the reply that the event with this number isn't enabled.
fn not_enabled_reply(alloc: Global, event: usize) -> Result<Reply, AllocError>
    ensures { IfOk result (λ r. reply r.text.items r.close ≡ reply (not_enabled_line event) (Close.Refused (uncoded (position.Event event)))) }
{
    let mut text = Vec::new(alloc);
    put_not_enabled_line(&mut text, event)?;
    Ok(refused_by(text, Failure::uncoded(Position::Event(event))))
}

/// Returns the reply that the event with this number traps.
fn trap_reply(alloc: Global, cause: Cause, event: usize) -> Result<Reply, AllocError>
    ensures { IfOk result (λ r. reply r.text.items r.close ≡ reply (trap_line (cause_number cause) event) (Close.Trapped (coded 67 (cause_number cause) (position.Event event)))) }
{
    let failure = Failure::coded(b'C', cause.number(), Position::Event(event));
    let mut text = Vec::new(alloc);
    put_trap_line(&mut text, cause.number(), event)?;
    Ok(Reply {
        text,
        close: Close::Trapped(failure),
        more: None,
    })
}

/// Returns the reply that the event with this number failed in this way.
pub fn stopped_reply(alloc: Global, stopped: Stopped, event: usize) -> Result<Reply, AllocError>
    ensures { IfOk result (λ r. (o : Outcome State) (next : State → AReply) → IsStopped o stopped → ByOutcome o (λ s. ⊥) (reply r.text.items r.close ≡ after_event event o next)) }
{
    match stopped {
        Stopped::NotEnabled => not_enabled_reply(alloc, event),
        Stopped::Trap(cause) => trap_reply(alloc, cause, event),
        Stopped::NoMemory => Err(AllocError),
    }
}

/// Returns the report and the details of the state to which the events lead, or the reply to the first event that isn't enabled or traps.
fn report_reply(
    alloc: Global,
    source: &Option<SourceText<'_>>,
    first: Plain,
    events: &[Event],
) -> Result<Reply, AllocError>
    requires below { AreBelow opening_bound first.state }
    requires sizes { AreShort events.now }
    requires few { length events.now ≤ 16777217 }
    ensures { IfOk result (λ r. IsAnswerFrom source.now Report first events.now (reply r.text.items r.close)) }
{
    match play(alloc, first, events)? {
        Ok(replaying) => {
            let answered = state_reply(alloc, &replaying.plain)?;
            with_details(alloc, source, &replaying, answered)
        }
        Err(failed) => with_reason(alloc, source, failed),
    }
}

/// Executes the events, and reports or draws them.
fn answer_of(
    alloc: Global,
    source: &Option<SourceText<'_>>,
    answer: Answer,
    names: Symbols,
    first: Plain,
    events: &[Event],
    budgets: &[u64],
) -> Result<Reply, AllocError>
    requires below { AreBelow opening_bound first.state }
    requires sizes { AreShort events.now }
    requires few { length events.now ≤ 16777217 }
    ensures { IfOk result (λ r. IsAnswerFrom source.now answer first events.now (reply r.text.items r.close)) }
{
    match answer {
        Answer::Report => report_reply(alloc, source, first, events),
        Answer::Numbers => counted_reply(alloc, source, first, events, &names, budgets),
        Answer::Json => json_reply(alloc, source, first, events),
        Answer::Picture(shown) => draw(alloc, shown, names, first, events, None),
    }
}

/// Returns the program, with the budgets of its procedures if statistics are requested.
fn budgeted_for(alloc: Global, answer: Answer, program: Program) -> Result<Budgeted, AllocError>
    ensures { IfOk result (λ b. b.program ≡ program) }
{
    match answer {
        Answer::Numbers => with_budgets(alloc, program),
        Answer::Report | Answer::Json | Answer::Picture(_) => Ok(Budgeted {
            program,
            budgets: Vec::new(alloc),
        }),
    }
}

/// Opens the program, and executes the events.
fn opened_reply(
    alloc: Global,
    source: &Option<SourceText<'_>>,
    order: &ReplayOrder,
    events: &[Event],
    program: Program,
    budgets: &[u64],
) -> Result<Reply, AllocError>
    requires source { MayBeSource source.now program.procedures }
    requires sizes { AreShort events.now }
    requires few { length events.now ≤ 16777217 }
    ensures { IfOk result (λ r. IsReplayed (text_of source.now) order.now program events.now (reply r.text.items r.close)) }
{
    let names = symbols_of(alloc, source)?;
    match Plain::open(alloc, program, order.inputs.as_slice(), order.layout) {
        Ok(plain) => answer_of(alloc, source, order.answer, names, plain, events, budgets),
        Err(refused) => unopened_reply(alloc, source, order, &refused),
    }
}

/// Returns the reply to the events of a trace.
fn events_reply(
    alloc: Global,
    source: &Option<SourceText<'_>>,
    order: &ReplayOrder,
    events: &[Event],
    program: Program,
) -> Result<Reply, AllocError>
    requires source { MayBeSource source.now program.procedures }
    requires sizes { AreShort events.now }
    requires few { length events.now ≤ 16777217 }
    ensures { IfOk result (λ r. IsReplayed (text_of source.now) order.now program events.now (reply r.text.items r.close)) }
{
    let Budgeted { program, budgets } = budgeted_for(alloc, order.answer, program)?;
    opened_reply(alloc, source, order, events, program, &budgets)
}

/// Returns the reply that a line of the trace isn't known.
fn line_reply(alloc: Global, line: usize) -> Result<Reply, AllocError>
    ensures { IfOk result (λ r. reply r.text.items r.close ≡ reply (history_line line) (Close.Refused (coded 69 1 (position.Line line 0 0)))) }
{
    let mut text = Vec::new(alloc);
    put_history_line(&mut text, line)?;
    Ok(refused_by(text, Failure::coded(b'E', 1, Position::in_line(line))))
}

/// Returns the reply to a trace on a program, which was read from this text, if from any. An allocation that fails is the only error.
pub fn replayed_reply(
    alloc: Global,
    source: &Option<SourceText<'_>>,
    order: &ReplayOrder,
    history: &[u8],
    program: Program,
) -> Result<Reply, AllocError>
    requires source { MayBeSource source.now program.procedures }
    requires few { length history.now ≤ 16777216 }
    ensures { IfOk result (λ r. RepliesByLines (text_of source.now) order.now (lines_in history.now) program (reply r.text.items r.close)) }
{
    match read_history(alloc, history) {
        Ok(events) => events_reply(alloc, source, order, &events, program),
        Err(HistoryFault::UnknownLine(line)) => line_reply(alloc, line),
        Err(HistoryFault::NoMemory) => Err(AllocError),
    }
}
