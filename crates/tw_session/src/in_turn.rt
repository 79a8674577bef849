//! The replies of a single-threaded `run`.

ghost use Rattle.std.specs.Prelude.{◌≡◌, IfOk, map, string_bytes, true};
ghost use Rattle.tw_order.specs.Orders.{may_be_stopped};
ghost use Rattle.tw_source.specs.Reply.{reply};
ghost use Rattle.tw_session.specs.ProgramAction.{IsRunMade, RepliesToRun};
ghost use Rattle.tw_session.specs.Clockless.{AnswersWords, MayReplyClockless, clockless_reply, limits_time};
ghost use Rattle.tw_session.specs.Parts.{seen_given};
ghost use Rattle.tw_source.specs.Source.{MayBeSource};

use crate::order::reply_in_turn;
use crate::parts::Given;
use crate::programs::RunRequest;
use crate::run::{run_reply, unopened_reply};
use crate::shell::unordered_reply;
use std::alloc::{AllocError, Global};
use tw_cli::read_order;
use tw_in_turn::{EndedRun, run_in_turn, run_until};
use tw_order::Order;
use tw_pool::OpenError;
use tw_source::{Close, Reply, fixed_reply};
use tw_stop::StopSignal;

/// Returns the reply of a run that was made in this thread, or why it isn't opened.
pub fn made_reply(
    alloc: Global,
    run: RunRequest<'_>,
    made: Result<EndedRun, OpenError>,
) -> Result<Reply, AllocError>
    requires made { IsRunMade (may_be_stopped run.order.options) run made }
    requires source { MayBeSource run.source run.verified.program }
    ensures { IfOk result (λ r. RepliesToRun run.entry (reply r.text.items r.close)) }
{
    match made {
        Ok(left) => match left.closing() {
            Some(closing) => {
                let cut = left.cut();
                run_reply(alloc, run, &left.outcome, &left.history, cut, closing)
            }
            None => Err(AllocError),
        },
        Err(why) => unopened_reply(alloc, &run, why),
    }
}

/// Opens an accepted program and runs it in this thread, to its end.
pub fn reply_single_threaded(alloc: Global, run: RunRequest<'_>) -> Result<Reply, AllocError>
    requires { MayBeSource run.source run.verified.program }
    ensures { IfOk result (λ r. RepliesToRun run.entry (reply r.text.items r.close)) }
{
    let inputs = run.order.inputs.as_slice();
    let (layout, seed) = (run.order.options.layout, run.order.options.seed);
    let limit = run.order.options.limit.events();
    let made = run_in_turn(alloc, &run.verified, inputs, layout, limit, seed);
    made_reply(alloc, run, made)
}

/// Opens an accepted program and runs it in this thread, to its end or until the signal is raised.
pub fn run_until_raised<S: StopSignal>(
    alloc: Global,
    run: &RunRequest<'_>,
    stop: &mut S,
) -> Result<EndedRun, OpenError>
    ensures { IsRunMade true run.now result }
{
    let inputs = run.order.inputs.as_slice();
    let (layout, seed) = (run.order.options.layout, run.order.options.seed);
    let limit = run.order.options.limit.events();
    run_until(alloc, &run.verified, inputs, layout, limit, seed, stop)
}

/// Returns whether an order limits the time of a run.
fn limits_time(order: &Order) -> bool
    ensures { result ≡ limits_time order.now }
{
    match order {
        Order::Run(_, options, _) => options.seconds.is_some(),
        Order::Each(_, order) => order.seconds.is_some(),
        Order::Assemble(_) | Order::Disassemble(..) => false,
        Order::Check(..) | Order::Replay(..) => false,
    }
}

/// Returns the reply to an order that limits the time of a run.
fn clockless_reply(alloc: Global) -> Result<Reply, AllocError>
    ensures { IfOk result (λ r. reply r.text.items r.close ≡ clockless_reply) }
{
    fixed_reply(
        alloc,
        "command line refused\n--seconds needs the command tw: the library has no clock, and is stopped by flags\n",
        Close::CommandLine,
    )
}

/// Returns the reply to an order without a clock: one that limits the time of a run is rejected.
fn reply_without_clock(alloc: Global, order: Order, given: Given<'_>) -> Result<Reply, AllocError>
    ensures { IfOk result (λ r. MayReplyClockless order (seen_given given.entry) (reply r.text.items r.close)) }
{
    if limits_time(&order) {
        return clockless_reply(alloc);
    }
    reply_in_turn(alloc, order, given)
}

/// Returns the reply to arguments and the bytes that come with them, with a run single-threaded. It starts no thread, never waits, and has no clock.
pub fn answer_in_turn(alloc: Global, words: &[String], input: &[u8]) -> Result<Reply, AllocError>
    ensures { IfOk result (λ r. AnswersWords (map string_bytes words.now) input.now (reply r.text.items r.close)) }
{
    match read_order(alloc, words) {
        Ok(order) => reply_without_clock(alloc, order.in_turn(), Given::alone(input)),
        Err(no_order) => unordered_reply(alloc, no_order),
    }
}
