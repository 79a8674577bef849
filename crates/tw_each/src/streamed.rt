//! The answers of a program to lines that are read.

ghost use Rattle.tw_each.specs.Stream.{Streams};

use crate::lines::MOST_BYTES;
use crate::reply::{Ready, read_ready, too_long_reply};
use crate::stream::{StreamError, answer_stream};
use crate::team::{LineCrew, LineTeam};
use crate::threads::LineThreads;
use crate::worst::WorstEnd;
use std::io::{Read, Write};
use std::thread::Threads;
use std::time::Clock;
use tw_order::{EachOrder, Source};
use tw_source::Reply;

/// The end of a program that is run on lines.
#[derive(Drop)]
pub enum Streamed {
    /// All lines are answered, and this is the worst of their ends.
    Answered(WorstEnd),
    /// The program isn't run, and nothing was read or written.
    Rejected(Reply),
}

/// Reads a program from `input`, and runs it on each line of `reader`. The answer to a line is written as soon as it and those before it are
/// there.
pub fn stream_each<H: Threads + Clock + Sync, R: Read, W: Write>(
    threads: &LineThreads<'_, H>,
    source: Source,
    order: &EachOrder,
    input: &[u8],
    reader: &mut R,
    writer: &mut W,
) -> Result<Streamed, StreamError>
    ensures { Streams source order.now input.now (R.remaining reader.old) (R.remaining reader.new) (W.contents writer.old) (W.contents writer.new) result }
{
    let LineThreads { rt, alloc, count } = *threads;
    if input.len() > MOST_BYTES {
        let reply = too_long_reply(alloc)?;
        return Ok(Streamed::Rejected(reply));
    }
    match read_ready(alloc, source, order, input)? {
        Ready::Run(run) => {
            let team = LineTeam::of(rt, order);
            let crew = LineCrew {
                team: &team,
                clock: rt,
                alloc,
                count,
                run: &run,
            };
            let worst = answer_stream(&crew, reader, writer)?;
            Ok(Streamed::Answered(worst))
        }
        Ready::Rejected(reply) => Ok(Streamed::Rejected(reply)),
    }
}
