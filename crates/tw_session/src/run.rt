//! The replies of `run`.

ghost use Rattle.std.specs.Prelude.{◌≡◌, ◌⊎◌, IfOk, IfSome, List, None, Some, false, true};
ghost use Rattle.tw_host.specs.Ends.{Closes};
ghost use Rattle.tw_host.specs.Seats.{SeatEvents};
ghost use Rattle.tw_in_turn.specs.InTurn.{HasEnded};
ghost use Rattle.tw_code.specs.machine.Inputs.{AreInputsOf};
ghost use Rattle.tw_pool.specs.Openings.{IsRejection};
ghost use Rattle.tw_source.specs.Reply.{reply};
ghost use Rattle.tw_run_output.specs.Over.{IsRunOver};
ghost use Rattle.tw_session.specs.ProgramAction.{RepliesToRun};
ghost use Rattle.tw_session.specs.Run.{IsRun, RepliesByClose, RepliesByEnd, run_as, threads_failed};
ghost use Rattle.tw_source.specs.Source.{MayBeSource, text_of};

use crate::programs::RunRequest;
use std::alloc::{AllocError, Global};
use std::sync::Wait;
use std::thread::Threads;
use std::time::Clock;
use tw_host::Closed;
use tw_pool::{Closing, Final, History, OpenError};
use tw_replay_output::inputs_refused_reply;
use tw_run_output::ended_reply;
use tw_source::{Failure, Position, Reply, failed_reply};
use tw_stop::Deadline;
use tw_workers::{Gate, Timed, run};

/// Returns why a run has ended, unless it was stopped although it may not be.
pub fn stop_reason(closing: Option<Closing>, may_be_stopped: bool) -> Option<Closing>
    ensures same { IfSome result (λ c. closing ≡ Some c) }
    ensures unstopped { IfSome result (λ c. c ≡ Closing.Stopped → may_be_stopped ≡ true) }
    ensures none { result ≡ None → HasEnded closing → ⊥ }
    ensures unfinished { result ≡ None → (closing ≡ None) ⊎ ((closing ≡ Some Closing.Stopped) × (may_be_stopped ≡ false)) }
{
    match closing {
        Some(Closing::Quiet) => Some(Closing::Quiet),
        Some(Closing::Stuck(rules)) => Some(Closing::Stuck(rules)),
        Some(Closing::Limit) => Some(Closing::Limit),
        Some(Closing::Stopped) if may_be_stopped => Some(Closing::Stopped),
        Some(Closing::Stopped) | None => None,
    }
}

/// Returns the reply if the threads didn't finish the run.
fn threads_reply(alloc: Global) -> Result<Reply, AllocError>
    ensures { IfOk result (λ r. reply r.text.items r.close ≡ threads_failed) }
{
    failed_reply(alloc, Failure::coded(b'X', 1, Position::Nowhere))
}

/// Returns the reply of a run that ended so, with the local instructions of a task that was cut off.
pub(crate) fn run_reply(
    alloc: Global,
    run: RunRequest<'_>,
    outcome: &Final,
    history: &History,
    cut: u64,
    closing: Closing,
) -> Result<Reply, AllocError>
    requires over { (o : IsRunOver run.verified.program run.order outcome.now history.now.events closing) × IsRun run.verified.program run.order history.now.events cut o.state closing }
    requires inputs { AreInputsOf run.verified.program run.order.inputs }
    requires source { MayBeSource run.source run.verified.program }
    ensures { IfOk result (λ r. RepliesByEnd (text_of run.entry.source) run.entry.verified.program run.entry.order (reply r.text.items r.close)) }
{
    let (source, order) = (run.source, run.order);
    ended_reply(
        alloc,
        &source,
        &order,
        run.verified,
        outcome,
        history,
        cut,
        closing,
    )
}

/// Returns the reply of a run whose seats were all returned, with the local instructions of tasks that were cut off.
fn closed_reply(
    alloc: Global,
    run: RunRequest<'_>,
    closed: Closed,
    cut: u64,
) -> Result<Reply, AllocError>
    requires closed { (seats : List SeatEvents) × Closes (run_as run.verified run.order) seats closed }
    requires threads { run.order.options.in_turn ≡ false }
    requires inputs { AreInputsOf run.verified.program run.order.inputs }
    requires source { MayBeSource run.source run.verified.program }
    ensures { IfOk result (λ r. RepliesByClose (text_of run.entry.source) run.entry.verified.program run.entry.order closed (reply r.text.items r.close)) }
{
    match closed {
        Closed::Ended {
            history,
            outcome,
            by_seat: _,
        } => match stop_reason(outcome.closing(), run.order.options.may_be_stopped()) {
            None => threads_reply(alloc),
            Some(closing) => run_reply(alloc, run, &outcome, &history, cut, closing),
        },
        Closed::Differs { .. } => threads_reply(alloc),
    }
}

/// Returns the reply to a run that isn't opened.
pub fn unopened_reply(
    alloc: Global,
    run: &RunRequest<'_>,
    why: OpenError,
) -> Result<Reply, AllocError>
    requires refused { IsRejection run.now.verified.program run.now.order.inputs run.now.order.options.layout run.now.order.options.limit why }
    ensures { IfOk result (λ r. RepliesToRun run.now (reply r.text.items r.close)) }
{
    match why {
        OpenError::NoMemory => Err(AllocError),
        _ => inputs_refused_reply(
            alloc,
            &run.source,
            why.number(),
            run.verified.program().procedures(),
            run.order.inputs.as_slice(),
        ),
    }
}

/// Opens an accepted program and runs it, with one thread for each actor.
fn reply_observed<H: Threads + Wait + Clock + Sync, G: Gate + Sync>(
    rt: &H,
    alloc: Global,
    gate: &G,
    request: RunRequest<'_>,
) -> Result<Reply, AllocError>
    requires turns { request.order.options.in_turn ≡ false }
    requires source { MayBeSource request.source request.verified.program }
    ensures { IfOk result (λ r. RepliesToRun request.entry (reply r.text.items r.close)) }
{
    let (verified, inputs) = (&request.verified, request.order.inputs.as_slice());
    let layout = request.order.options.layout;
    let limit = request.order.options.limit.events();
    match run(rt, alloc, verified, inputs, layout, limit, gate) {
        Ok((_, true)) => Err(AllocError),
        Ok((closed, false)) => closed_reply(alloc, request, closed, gate.cut()),
        Err(why) => unopened_reply(alloc, &request, why),
    }
}

/// Like `reply_observed`, but stops the run after the order's time, too, if that is limited.
pub fn reply_threaded<H: Threads + Wait + Clock + Sync, G: Gate + Sync>(
    rt: &H,
    alloc: Global,
    gate: &G,
    run: RunRequest<'_>,
) -> Result<Reply, AllocError>
    requires turns { run.order.options.in_turn ≡ false }
    requires source { MayBeSource run.source run.verified.program }
    ensures { IfOk result (λ r. RepliesToRun run.entry (reply r.text.items r.close)) }
{
    match run.order.options.seconds {
        None => reply_observed(rt, alloc, gate, run),
        Some(seconds) => {
            let deadline = Deadline::after(rt, seconds);
            let timed = Timed::new(gate, &deadline);
            reply_observed(rt, alloc, &timed, run)
        }
    }
}
