//! Output of `replay --json`.

ghost use Rattle.std.specs.Prelude.{◌≡◌, ◌≤◌, IfOk, length, string_bytes};
ghost use Rattle.tw_bounds.specs.Runs.{instructions_by, instructions_in};
ghost use Rattle.tw_code.specs.machine.Bounds.{AreBelow, opening_bound};
ghost use Rattle.tw_source.specs.Reply.{reply};
ghost use Rattle.tw_order.specs.declared.runs.Answer.TheVariants.{Json};
ghost use Rattle.tw_replay_output.specs.Counted.{AreShort};
ghost use Rattle.tw_replay_output.specs.Replay.{pending_of, shown_state, state_line, status_of};
ghost use Rattle.tw_replay_output.specs.Stuck.{IsAnswerFrom};

use crate::replay::close_of;
use crate::replay_details::with_reason;
use crate::replaying::play;
use std::alloc::{AllocError, Global};
use tw_json_output::{RunEnd, RunNumbers, run_line};
use tw_machine::Plain;
use tw_report::circle_state;
use tw_source::{Reply, SourceText};
use tw_types::{Ending, Event};

/// Returns the word for the end of a trace.
fn status_of(ending: Option<Ending>) -> &'static str
    ensures { result.now ≡ status_of ending }
{
    match ending {
        None => "running",
        Some(Ending::Quiet) => "quiet",
        Some(Ending::Stuck(_)) => "stuck",
    }
}

/// Returns the number of pending rules of a stuck state.
fn pending_of(ending: Option<Ending>) -> Option<u64>
    ensures { result ≡ pending_of ending }
{
    match ending {
        None => None,
        Some(Ending::Quiet) => None,
        Some(Ending::Stuck(rules)) => Some(rules),
    }
}

/// Returns how many instructions an event executes; an `End` executes the RET.
pub fn instructions_by(event: Event) -> u64
    ensures { result ≡ instructions_by event }
{
    match event {
        Event::Local(_, count) => count,
        Event::Call(_) | Event::End(_) => 1,
        Event::Take(_) | Event::Ask(..) | Event::Deliver(..) | Event::Release(..) => 0,
    }
}

/// Returns how many instructions events execute.
fn instructions_in(events: &[Event]) -> u128
    ensures { result ≡ instructions_in events.now }
{
    let mut sum = 0;
    for event in events {
        sum += u128::from(instructions_by(*event));
    }
    sum
}

/// Returns the JSON line of the state to which events lead.
fn state_line(alloc: Global, plain: &Plain, events: &[Event]) -> Result<String, AllocError>
    ensures { IfOk result (λ line. string_bytes line ≡ state_line plain.now.program events.now plain.now.state) }
{
    let numbers = RunNumbers {
        events: events.len() as u64,
        instructions: instructions_in(events),
    };
    let end = RunEnd {
        status: status_of(plain.ending()),
        pending: pending_of(plain.ending()),
        circle: circle_state(alloc, plain)?,
    };
    run_line(alloc, plain.state(), numbers, &end)
}

/// Returns the reply with the JSON line of the state to which events lead.
fn shown_state(alloc: Global, plain: &Plain, events: &[Event]) -> Result<Reply, AllocError>
    ensures { IfOk result (λ r. reply r.text.items r.close ≡ shown_state plain.now.program events.now plain.now.state) }
{
    let close = close_of(plain.ending());
    let line = state_line(alloc, plain, events)?;
    Ok(Reply {
        text: line.into_bytes(),
        close,
        more: None,
    })
}

/// Returns the JSON line of the state to which the events lead, or the reply to the first event that isn't enabled or traps.
pub fn json_reply(
    alloc: Global,
    source: &Option<SourceText<'_>>,
    first: Plain,
    events: &[Event],
) -> Result<Reply, AllocError>
    requires below { AreBelow opening_bound first.state }
    requires sizes { AreShort events.now }
    requires few { length events.now ≤ 16777217 }
    ensures { IfOk result (λ r. IsAnswerFrom source.now Json first events.now (reply r.text.items r.close)) }
{
    match play(alloc, first, events)? {
        Ok(replaying) => shown_state(alloc, &replaying.plain, events),
        Err(failed) => with_reason(alloc, source, failed),
    }
}
