//! Answers lines as they are read.

ghost use Rattle.std.specs.Prelude.{◌≡◌, ◌+◌, ◌^◌, ◌<◌, ◌++◌, ◌∷◌, List, ℕ, IfErr, IfOk, OnOk, length, map};
ghost use Rattle.std.specs.Io.KnownBytes.{Appends};
ghost use Rattle.tw_each.specs.Answers.{way};
ghost use Rattle.tw_each.specs.declared.stream.StreamError.TheVariants.{NoMemory as StopsWithout};
ghost use Rattle.tw_each.specs.Stream.{Adds, AnswersAll, AnswersLast, AreWritten, IsAt, Stops, TakesChunk, kept, parts_of};

use crate::pace::{Begun, Pace};
use crate::parts::{keep, lines_from, parts_of};
use crate::team::LineCrew;
use crate::threads::divided;
use crate::worst::WorstEnd;
use std::alloc::AllocError;
use std::io::{ErrorKind, Read, Write};
use std::thread::Threads;
use std::time::Clock;

/// The most bytes that are read at once.
const CHUNK: usize = 65_536;

/// The reason why no more lines are answered.
#[derive(Clone, Copy, PartialEq, Eq)]
pub enum StreamError {
    /// A read failed.
    Read,
    /// A write failed.
    Write,
    /// An allocation failed.
    NoMemory,
}

impl From<AllocError> for StreamError {
    ghost from_gives = { λ _ e. e ≡ StopsWithout };

    fn from(_error: AllocError) -> StreamError {
        StreamError::NoMemory
    }
}

/// The lines that are answered.
#[derive(Clone, Copy)]
pub(crate) struct AnsweredLines {
    pub(crate) number: usize,
    pub(crate) worst: WorstEnd,
    pub(crate) pace: Pace,
}

/// Writes answers, and flushes them.
fn write_text<W: Write>(writer: &mut W, text: &[u8]) -> Result<(), StreamError>
    ensures text { OnOk result (Appends (W.contents writer.old) (W.contents writer.new) text.now) }
    ensures failed { IfErr result (λ why. why ≡ StreamError.Write) }
{
    if writer.write_all(text).is_err() {
        return Err(StreamError::Write);
    }
    if writer.flush().is_err() {
        return Err(StreamError::Write);
    }
    Ok(())
}

/// Answers lines, in one thread if there is only one, and writes the answers.
fn write_some<H: Threads + Sync, C: Clock + Sync, W: Write>(
    crew: &LineCrew<'_, '_, H, C>,
    before: usize,
    lines: &[&[u8]],
    writer: &mut W,
) -> Result<WorstEnd, StreamError>
    requires { before + length lines.now < 2 ^ 63 }
    ensures written { IfOk result (AreWritten (way crew.now.run.now) before (map (λ line. line.now) lines.now) (W.contents writer.old) (W.contents writer.new)) }
    ensures stopped { IfErr result (Stops (way crew.now.run.now) before (map (λ line. line.now) lines.now) (W.contents writer.old) (W.contents writer.new)) }
{
    let answers = divided(crew, before, lines)?;
    write_text(writer, &answers.text)?;
    Ok(answers.worst)
}

/// Answers lines, and writes the answers soon. `answered` are the lines before them.
fn write_lines<H: Threads + Sync, C: Clock + Sync, W: Write>(
    crew: &LineCrew<'_, '_, H, C>,
    answered: AnsweredLines,
    lines: &[&[u8]],
    writer: &mut W,
) -> Result<AnsweredLines, StreamError>
    requires { answered.number + length lines.now < 2 ^ 63 }
    ensures { Adds (way crew.now.run.now) answered (map (λ line. line.now) lines.now) (W.contents writer.old) (W.contents writer.new) result }
{
    let mut pace = answered.pace;
    let mut worst = answered.worst;
    let mut done = 0;
    while done < lines.len() {
        let begun = Begun::now(crew.clock);
        let (_, others) = lines.split_at(done);
        let (some, _) = others.split_at(pace.lines(others.len()));
        let end = write_some(crew, answered.number + done, some, writer)?;
        worst = worst.worse(end);
        pace = pace.after(begun, crew.clock);
        done += some.len();
    }
    Ok(AnsweredLines {
        number: answered.number + done,
        worst,
        pace,
    })
}

/// Answers the line that has begun, and those after it.
fn write_begun<H: Threads + Sync, C: Clock + Sync, W: Write>(
    crew: &LineCrew<'_, '_, H, C>,
    answered: AnsweredLines,
    begun: &[u8],
    others: &[&[u8]],
    writer: &mut W,
) -> Result<AnsweredLines, StreamError>
    ensures { Adds (way crew.now.run.now) answered (begun.now ∷ map (λ line. line.now) others.now) (W.contents writer.old) (W.contents writer.new) result }
{
    let lines = lines_from(crew.alloc, begun, others)?;
    match answered.number.checked_add(lines.len()) {
        Some(number) if number <= isize::MAX as usize => {
            write_lines(crew, answered, &lines, writer)
        }
        _ => Err(StreamError::Read),
    }
}

/// Answers the line that has begun and those between, and keeps the last part, if there is one.
fn take_others<H: Threads + Sync, C: Clock + Sync, W: Write>(
    crew: &LineCrew<'_, '_, H, C>,
    answered: AnsweredLines,
    begun: &mut Vec<u8>,
    others: &[&[u8]],
    writer: &mut W,
) -> Result<AnsweredLines, StreamError>
    ensures { (before chunk first : List ℕ) → parts_of chunk ≡ first ∷ map (λ part. part.now) others.now → begun.old.items ≡ kept (before ++ first)
        → TakesChunk (way crew.now.run.now) answered before begun.new.items chunk (W.contents writer.old) (W.contents writer.new) result }
{
    match others.split_last() {
        None => Ok(answered),
        Some((last, ended)) => {
            let now = write_begun(crew, answered, begun, ended, writer)?;
            begun.clear();
            keep(begun, last)?;
            Ok(now)
        }
    }
}

/// Answers the lines that end in a chunk of these parts, and keeps the one that has begun after them.
fn take_parts<H: Threads + Sync, C: Clock + Sync, W: Write>(
    crew: &LineCrew<'_, '_, H, C>,
    answered: AnsweredLines,
    begun: &mut Vec<u8>,
    parts: &[&[u8]],
    writer: &mut W,
) -> Result<AnsweredLines, StreamError>
    ensures { (chunk : List ℕ) → map (λ part. part.now) parts.now ≡ parts_of chunk → TakesChunk (way crew.now.run.now) answered begun.old.items begun.new.items chunk (W.contents writer.old) (W.contents writer.new) result }
{
    match parts.split_first() {
        None => Ok(answered),
        Some((first, others)) => {
            keep(begun, first)?;
            take_others(crew, answered, begun, others, writer)
        }
    }
}

/// Answers the lines that end in a chunk, and keeps the one that has begun after them.
fn take_chunk<H: Threads + Sync, C: Clock + Sync, W: Write>(
    crew: &LineCrew<'_, '_, H, C>,
    answered: AnsweredLines,
    begun: &mut Vec<u8>,
    chunk: &[u8],
    writer: &mut W,
) -> Result<AnsweredLines, StreamError>
    ensures { TakesChunk (way crew.now.run.now) answered begun.old.items begun.new.items chunk.now (W.contents writer.old) (W.contents writer.new) result }
{
    let parts = parts_of(crew.alloc, chunk)?;
    take_parts(crew, answered, begun, &parts, writer)
}

/// Answers the line that ends without a line feed, if there is one. Returns the worst end of all lines.
fn finish<H: Threads + Sync, C: Clock + Sync, W: Write>(
    crew: &LineCrew<'_, '_, H, C>,
    answered: AnsweredLines,
    begun: &[u8],
    writer: &mut W,
) -> Result<WorstEnd, StreamError>
    ensures { (bytes : List ℕ) → IsAt bytes answered.number begun.now → AnswersLast (way crew.now.run.now) answered bytes (W.contents writer.old) (W.contents writer.new) result }
{
    if begun.is_empty() {
        return Ok(answered.worst);
    }
    let last = write_begun(crew, answered, begun, &[], writer)?;
    Ok(last.worst)
}

/// Reads lines to the end, and writes the answer to each as soon as it and those before it are there. Returns the worst end of all lines.
pub(crate) fn answer_stream<H: Threads + Sync, C: Clock + Sync, R: Read, W: Write>(
    crew: &LineCrew<'_, '_, H, C>,
    reader: &mut R,
    writer: &mut W,
) -> Result<WorstEnd, StreamError>
    ensures { AnswersAll (way crew.now.run.now) (R.remaining reader.old) (R.remaining reader.new) (W.contents writer.old) (W.contents writer.new) result }
{
    let mut chunk = Vec::new(crew.alloc);
    chunk.resize(CHUNK, 0)?;
    let mut begun = Vec::new(crew.alloc);
    let mut answered = AnsweredLines {
        number: 0,
        worst: WorstEnd::Quiet,
        pace: Pace::new(crew.team.size()),
    };
    for _ in 0..u64::MAX {
        match reader.read(chunk.as_mut_slice()) {
            Ok(0) => return finish(crew, answered, &begun, writer),
            Ok(count) => {
                answered = take_chunk(crew, answered, &mut begun, &chunk[..count], writer)?;
            }
            Err(error) if error.kind() == ErrorKind::Interrupted => {}
            Err(_) => return Err(StreamError::Read),
        }
    }
    Err(StreamError::Read)
}
