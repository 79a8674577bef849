//! The reply to a program and lines of inputs that are read together.

ghost use Rattle.std.specs.Prelude.{◌≡◌, IfOk};
ghost use Rattle.tw_source.specs.Reply.{reply};
ghost use Rattle.tw_each.specs.Ready.{AreEachParts};
ghost use Rattle.tw_each.specs.Reply.{RepliesByEach};
ghost use Rattle.tw_each.specs.Worst.{close_of as close_of_is};

use crate::answer::EachRun;
use crate::line_count::LineCount;
use crate::lines::{Answers, answer_lines};
use crate::no_clock::NoClock;
use crate::parts::parts_of;
use crate::reply::{Ready, json_reply, read_ready};
use crate::team::{LineCrew, LineTeam};
use crate::threads::{LineThreads, divided};
use crate::worst::close_of;
use std::alloc::{AllocError, Global};
use std::thread::Threads;
use std::time::Clock;
use tw_order::{EachOrder, Source};
use tw_source::{Close, Reply, cut_inputs, fixed_reply, not_utf8_reply};

/// A program that may be run on lines, and the lines; or the reply to what is none.
#[derive(Drop)]
pub(crate) enum EachParts<'a> {
    Lines(EachRun<'a>, Vec<&'a [u8]>),
    Replied(Reply),
}

/// Reads a program and the lines after it. Without a line `inputs` the command line is rejected.
fn each_parts<'a>(
    alloc: Global,
    source: Source,
    order: &EachOrder,
    input: &'a [u8],
) -> Result<EachParts<'a>, AllocError>
    ensures { IfOk result (AreEachParts source order.now input.entry.now) }
{
    let Ok(_) = str::from_utf8(input) else {
        let error = not_utf8_reply(alloc)?;
        let reply = json_reply(alloc, error)?;
        return Ok(EachParts::Replied(reply));
    };
    let Some((program, lines)) = cut_inputs(input) else {
        let reply = fixed_reply(alloc, "command line refused\n", Close::CommandLine)?;
        return Ok(EachParts::Replied(reply));
    };
    match read_ready(alloc, source, order, program)? {
        Ready::Run(run) => {
            let lines = parts_of(alloc, lines)?;
            Ok(EachParts::Lines(run, lines))
        }
        Ready::Rejected(reply) => Ok(EachParts::Replied(reply)),
    }
}

/// Returns the reply with all answers.
fn answered_reply(answers: Answers) -> Reply
    ensures text { result.text.items ≡ answers.text.items }
    ensures close { result.close ≡ close_of_is answers.worst }
{
    Reply {
        text: answers.text,
        close: close_of(answers.worst),
        more: None,
    }
}

/// Returns the reply to a program, a line `inputs` and lines of inputs: an object for each line that isn't blank, or one for the error of the program.
/// In how many threads the lines are answered doesn't change it.
pub fn each_reply<H: Threads + Clock + Sync>(
    threads: &LineThreads<'_, H>,
    source: Source,
    order: &EachOrder,
    input: &[u8],
) -> Result<Reply, AllocError>
    ensures { IfOk result (λ r. RepliesByEach source order.now input.now (reply r.text.items r.close)) }
{
    let LineThreads { rt, alloc, count } = *threads;
    match each_parts(alloc, source, order, input)? {
        EachParts::Lines(run, lines) => {
            let team = LineTeam::of(rt, order);
            let crew = LineCrew {
                team: &team,
                clock: rt,
                alloc,
                count,
                run: &run,
            };
            let answers = divided(&crew, 0, &lines)?;
            Ok(answered_reply(answers))
        }
        EachParts::Replied(reply) => Ok(reply),
    }
}

/// Like `each_reply`, but answers all lines in this thread, without a clock.
pub fn each_reply_in_turn(
    alloc: Global,
    source: Source,
    order: &EachOrder,
    input: &[u8],
) -> Result<Reply, AllocError>
    ensures { IfOk result (λ r. RepliesByEach source order.now input.now (reply r.text.items r.close)) }
{
    match each_parts(alloc, source, order, input)? {
        EachParts::Lines(run, lines) => {
            let count = LineCount::new();
            let answers = answer_lines(alloc, &NoClock, &run, &count, 0, &lines)?;
            Ok(answered_reply(answers))
        }
        EachParts::Replied(reply) => Ok(reply),
    }
}
