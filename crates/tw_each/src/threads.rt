//! The answers to all lines, in one thread or in several.

ghost use Rattle.std.specs.Prelude.{◌≡◌, ◌+◌, ◌++◌, ◌^◌, ◌<◌, IfOk, length, map};
ghost use Rattle.tw_each.specs.Answers.{AreAnswers, way};
ghost use Rattle.tw_each.specs.Shares.{AreMerged};
ghost use Rattle.tw_each.specs.Worst.{worse};

use crate::line_count::LineCount;
use crate::lines::{Answers, answer_lines};
use crate::team::{LineCrew, each_chunk};
use crate::worst::WorstEnd;
use std::alloc::{AllocError, Global};
use std::thread::Threads;
use std::time::Clock;

/// The threads that answer lines, and who counts these.
#[derive(Clone, Copy)]
pub struct LineThreads<'a, H> {
    pub rt: &'a H,
    pub alloc: Global,
    pub count: &'a LineCount,
}

/// Appends the answers to later lines.
fn joined(mut first: Answers, mut rest: Answers) -> Result<Answers, AllocError>
    ensures { IfOk result (λ answers. (answers.text.items ≡ first.text.items ++ rest.text.items) × (answers.worst ≡ worse first.worst rest.worst)) }
{
    let worst = first.worst.worse(rest.worst);
    if first.text.is_empty() {
        return Ok(Answers {
            text: rest.text,
            worst,
        });
    }
    first.text.append(&mut rest.text)?;
    Ok(Answers {
        text: first.text,
        worst,
    })
}

/// Joins the answers to all chunks, unless an allocation failed.
fn merged(alloc: Global, chunks: Vec<Result<Answers, AllocError>>) -> Result<Answers, AllocError>
    ensures { IfOk result (λ all. AreMerged chunks.items all.text.items all.worst) }
{
    let mut all = Answers {
        text: Vec::new(alloc),
        worst: WorstEnd::Quiet,
    };
    for answers in chunks {
        all = joined(all, answers?)?;
    }
    Ok(all)
}

/// Divides the lines among the threads of a team. `before` lines precede these.
pub(crate) fn divided<H: Threads + Sync, C: Clock + Sync>(
    crew: &LineCrew<'_, '_, H, C>,
    before: usize,
    lines: &[&[u8]],
) -> Result<Answers, AllocError>
    requires { before + length lines.now < 2 ^ 63 }
    ensures { IfOk result (λ answers. AreAnswers (way crew.now.run.now) before (map (λ line. line.now) lines.now) answers.text.items answers.worst) }
{
    let LineCrew {
        team,
        clock,
        alloc,
        count,
        run,
    } = *crew;
    let answer = move |start: usize, chunk: &[&[u8]]| -> Result<Answers, AllocError>
        requires { before + start + length chunk.now < 2 ^ 63 }
        ensures { IfOk result (λ answers. AreAnswers (way run.entry.now) (before + start) (map (λ line. line.now) chunk.now) answers.text.items answers.worst) }
    { answer_lines(alloc, clock, run, count, before + start, chunk) };
    let answers = each_chunk(team, alloc, lines, &answer)?;
    merged(alloc, answers)
}
