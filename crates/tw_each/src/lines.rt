//! The answers to all lines, in their order.

ghost use Rattle.std.specs.Prelude.{◌≡◌, ◌+◌, ◌^◌, ◌<◌, ◌++◌, List, ℕ, IfOk, length, map};
ghost use Rattle.tw_each.specs.Answers.{AreAnswers, IsLine, IsShortLine, is_blank, too_long as too_long_is, way};

use crate::answer::{EachRun, put_answer, put_unread};
use crate::line_count::LineCount;
use crate::worst::WorstEnd;
use std::alloc::{AllocError, Global};
use std::time::Clock;
use tw_inputs::Scratch;
use tw_source::{Failure, Position, is_gap};

/// The maximum number of bytes of a line.
pub(crate) const MOST_BYTES: usize = 16_777_216;

/// Answers to lines, and the worst of their ends.
#[derive(Drop)]
pub struct Answers {
    pub text: Vec<u8>,
    pub worst: WorstEnd,
}

/// Returns the error of a line that isn't UTF-8.
fn other_bytes() -> Failure {
    Failure::coded(b'H', 3, Position::Nowhere)
}

/// Returns the error of a line, or of a program, that is too long.
pub(crate) fn too_long() -> Failure
    ensures { result ≡ too_long_is }
{
    Failure::coded(b'H', 2, Position::Nowhere)
}

/// Returns whether a line has no other characters than blanks.
fn is_blank(line: &[u8]) -> bool
    ensures { result ≡ is_blank line.now }
{
    line.iter().all(|byte| is_gap(*byte))
}

/// Appends the answer to a line that isn't too long, if it isn't blank. Returns its end.
fn put_short_line<C: Clock>(
    alloc: Global,
    out: &mut Vec<u8>,
    clock: &C,
    run: &EachRun<'_>,
    number: usize,
    line: &[u8],
    scratch: &mut Scratch,
) -> Result<WorstEnd, AllocError>
    ensures { IfOk result (λ end. (text : List ℕ) × IsShortLine (way run.now) number line.now text end × (out.new.items ≡ out.old.items ++ text)) }
{
    if is_blank(line) {
        return Ok(WorstEnd::Quiet);
    }
    match str::from_utf8(line) {
        Ok(text) => put_answer(alloc, out, clock, run, number, text, scratch),
        Err(_) => put_unread(alloc, out, number, other_bytes()),
    }
}

/// Appends the answer to the line with this number, if it isn't blank. Returns its end.
fn put_line<C: Clock>(
    alloc: Global,
    out: &mut Vec<u8>,
    clock: &C,
    run: &EachRun<'_>,
    number: usize,
    line: &[u8],
    scratch: &mut Scratch,
) -> Result<WorstEnd, AllocError>
    ensures { IfOk result (λ end. (text : List ℕ) × IsLine (way run.now) number line.now text end × (out.new.items ≡ out.old.items ++ text)) }
{
    if line.len() > MOST_BYTES {
        return put_unread(alloc, out, number, too_long());
    }
    put_short_line(alloc, out, clock, run, number, line, scratch)
}

/// Runs the program on each line, one after the other, and returns the answers in the order of the lines. `before` lines precede these.
pub fn answer_lines<C: Clock>(
    alloc: Global,
    clock: &C,
    run: &EachRun<'_>,
    count: &LineCount,
    before: usize,
    lines: &[&[u8]],
) -> Result<Answers, AllocError>
    requires { before + length lines.now < 2 ^ 63 }
    ensures { IfOk result (λ answers. AreAnswers (way run.now) before (map (λ line. line.now) lines.now) answers.text.items answers.worst) }
{
    let mut text = Vec::new(alloc);
    let mut worst = WorstEnd::Quiet;
    let mut scratch = Scratch::new(alloc);
    for index in 0..lines.len() {
        let number = before + index + 1;
        let end = put_line(
            alloc,
            &mut text,
            clock,
            run,
            number,
            lines[index],
            &mut scratch,
        )?;
        worst = worst.worse(end);
        count.add(lines[index]);
    }
    Ok(Answers { text, worst })
}
