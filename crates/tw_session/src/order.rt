//! Replies of a session to an order and what it reads.

ghost use Rattle.std.specs.Prelude.{◌≡◌, ◌≤◌, IfOk, false, length, true};
ghost use Rattle.std.specs.Thread.{IsSync};
ghost use Rattle.tw_source.specs.Reply.{reply};
ghost use Rattle.tw_source.specs.Source.{MayBeSource};
ghost use Rattle.tw_session.specs.Parts.{seen, seen_given};
ghost use Rattle.tw_session.specs.ProgramAction.{IsRunMade, RepliesToRun};
ghost use Rattle.tw_session.specs.Session.{MayReplyOn, MayReplyTo};

use crate::in_turn::{made_reply, reply_single_threaded, run_until_raised};
use crate::json::{in_form, rendering_of};
use crate::line_threads::lines_reply;
use crate::parts::{Given, Parts};
use crate::prepare::prepare;
use crate::programs::{Prepared, RunRequest};
use crate::run::reply_threaded;
use crate::turns::{TurnSignal, Turns};
use std::alloc::{AllocError, Global};
use std::sync::Wait;
use std::thread::{Threads, join};
use std::time::Clock;
use tw_each::each_reply_in_turn;
use tw_in_turn::EndedRun;
use tw_order::Order;
use tw_pool::OpenError;
use tw_source::Reply;
use tw_workers::Gate;

/// Runs an accepted program in one thread, while the observer monitors its turns in another.
fn run_watched<H: Threads + Wait + Clock + Sync, G: Gate + Sync>(
    rt: &H,
    alloc: Global,
    gate: &G,
    run: &RunRequest<'_>,
) -> Result<EndedRun, OpenError>
    ensures { IsRunMade true run.now result }
{
    let turns = Turns::new();
    let turns = &turns;
    let monitor = move ||
        requires { IsSync H.row × IsSync G.row }
    { gate.monitor(rt, turns) };
    let work = move || -> Result<EndedRun, OpenError>
        requires { IsSync H.row }
        ensures { IsRunMade true run.entry.now result }
    {
        let mut signal = TurnSignal::new(rt, turns, run.order.options.seconds);
        let made = run_until_raised(alloc, run, &mut signal);
        turns.end();
        made
    };
    let ((), made) = join(rt, monitor, work);
    made
}

/// Runs an accepted program with threads, or single-threaded if that is ordered. A run in one thread is observed if it may be stopped.
fn run_as_ordered<H: Threads + Wait + Clock + Sync, G: Gate + Sync>(
    rt: &H,
    alloc: Global,
    gate: &G,
    run: RunRequest<'_>,
) -> Result<Reply, AllocError>
    requires { MayBeSource run.source run.verified.program }
    ensures { IfOk result (λ r. RepliesToRun run.entry (reply r.text.items r.close)) }
{
    if !run.order.options.in_turn {
        reply_threaded(rt, alloc, gate, run)
    } else if run.order.options.may_be_stopped() {
        let made = run_watched(rt, alloc, gate, &run);
        made_reply(alloc, run, made)
    } else {
        reply_single_threaded(alloc, run)
    }
}

/// Returns the text that replies to an order and what was read. The error is that an allocation fails. In a run with threads the observer `gate` is
/// called before and after each job.
fn text_reply<H: Threads + Wait + Clock + Sync, G: Gate + Sync>(
    rt: &H,
    alloc: Global,
    gate: &G,
    order: Order,
    parts: Parts<'_>,
) -> Result<Reply, AllocError>
    requires { parts.too_long ≡ false → length parts.trace.now ≤ 16777216 }
    ensures { IfOk result (λ r. MayReplyOn order (seen parts.entry) (reply r.text.items r.close)) }
{
    match prepare(alloc, order, parts) {
        Ok(Prepared::Finished(reply)) => Ok(reply),
        Ok(Prepared::Run(run)) => run_as_ordered(rt, alloc, gate, run),
        Ok(Prepared::Lines(source, order, input)) => {
            lines_reply(rt, alloc, gate, source, &order, input)
        }
        Err(error) => Err(error),
    }
}

/// Like `text_reply`, except that a run is single-threaded whatever the order says. It starts no thread, and never waits.
fn text_in_turn(alloc: Global, order: Order, parts: Parts<'_>) -> Result<Reply, AllocError>
    requires { parts.too_long ≡ false → length parts.trace.now ≤ 16777216 }
    ensures { IfOk result (λ r. MayReplyOn order (seen parts.entry) (reply r.text.items r.close)) }
{
    match prepare(alloc, order, parts) {
        Ok(Prepared::Finished(reply)) => Ok(reply),
        Ok(Prepared::Run(run)) => reply_single_threaded(alloc, run),
        Ok(Prepared::Lines(source, order, input)) => {
            each_reply_in_turn(alloc, source, &order, input)
        }
        Err(error) => Err(error),
    }
}

/// Returns the whole reply to an order and to what is given. The observer `gate` is called before and after each job of a run in threads.
pub fn reply_to<H: Threads + Wait + Clock + Sync, G: Gate + Sync>(
    rt: &H,
    alloc: Global,
    gate: &G,
    order: Order,
    given: Given<'_>,
) -> Result<Reply, AllocError>
    ensures { IfOk result (λ r. MayReplyTo order (seen_given given.entry) (reply r.text.items r.close)) }
{
    let rendering = rendering_of(&order);
    let parts = given.parts(&order);
    let text = text_reply(rt, alloc, gate, order, parts)?;
    in_form(alloc, rendering, text)
}

/// Like `reply_to`, but a run is single-threaded whatever the order says: no thread is started, and nothing waits.
pub fn reply_in_turn(alloc: Global, order: Order, given: Given<'_>) -> Result<Reply, AllocError>
    ensures { IfOk result (λ r. MayReplyTo order (seen_given given.entry) (reply r.text.items r.close)) }
{
    let rendering = rendering_of(&order);
    let parts = given.parts(&order);
    let text = text_in_turn(alloc, order, parts)?;
    in_form(alloc, rendering, text)
}
