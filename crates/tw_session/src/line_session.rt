//! A session whose program is run on lines that are read.

ghost use Rattle.std.specs.Prelude.{List, ℕ, Option};
ghost use Rattle.std.specs.Thread.{IsSync};
ghost use Rattle.tw_order.specs.declared.runs.EachOrder.{EachOrder as SpecOrder};
ghost use Rattle.tw_order.specs.declared.order.Source.{Source as ReadAs};
ghost use Rattle.tw_each.specs.Stream.{Streams};
ghost use Rattle.tw_session.specs.Each.{EndsEachSession, EndsEach};

use crate::line_progress::LineProgress;
use crate::order::reply_to;
use crate::parts::Given;
use crate::shell::{write_memory, write_reply};
use crate::status::Status;
use std::alloc::Global;
use std::io::{Read, Write};
use std::sync::Wait;
use std::thread::{Threads, join_mut};
use std::time::Clock;
use tw_each::{LineCount, LineThreads, StreamError, Streamed, close_of, stream_each};
use tw_order::{EachOrder, Order, Source};
use tw_workers::Gate;

/// Ends a session whose lines were answered, or not all, or whose program was rejected.
fn finish<W: Write>(made: Result<Streamed, StreamError>, writer: &mut W) -> Status
    ensures { (source : ReadAs) (order : SpecOrder) (input : List ℕ) (from left old : Option (List ℕ)) → Streams source order input from left old (W.contents writer.old) made
        → EndsEach source order input from left old (W.contents writer.new) result }
{
    match made {
        Ok(Streamed::Answered(worst)) => Status::Ended(close_of(worst)),
        Ok(Streamed::Rejected(reply)) => write_reply(Ok(reply), writer),
        Err(why) => match why {
            StreamError::Read => Status::ReadFailed,
            StreamError::Write => Status::WriteFailed,
            StreamError::NoMemory => write_memory(writer),
        },
    }
}

/// Runs a program on the lines, while the observer monitors them. Without a thread for it, it is called after the last line.
fn obey_each<H, G, R, W>(
    threads: &LineThreads<'_, H>,
    gate: &G,
    source: Source,
    order: &EachOrder,
    program: &[u8],
    reader: &mut R,
    writer: &mut W,
) -> Result<Streamed, StreamError>
where
    H: Threads + Wait + Clock + Sync,
    G: Gate + Sync,
    R: Read,
    W: Write,
    ensures { Streams source order.now program.now (R.remaining reader.old) (R.remaining reader.new) (W.contents writer.old) (W.contents writer.new) result }
{
    let rt = threads.rt;
    let count = threads.count;
    let mut monitor = ||
        requires { IsSync H.row × IsSync G.row }
    { gate.monitor(rt, &LineProgress { count }) };
    let mut work = || -> Result<Streamed, StreamError>
        ensures { Streams source order.entry.now program.entry.now (R.remaining reader.entry.now) (R.remaining reader.exit.now) (W.contents writer.entry.now) (W.contents writer.exit.now) result }
    {
        let made = stream_each(threads, source, order, program, reader, writer);
        count.end();
        made
    };
    let ((), made) = join_mut(rt, &mut monitor, &mut work);
    made
}

/// Runs a program on the lines, and ends the session.
fn answer_lines<H, G, R, W>(
    rt: &H,
    gate: &G,
    source: Source,
    order: &EachOrder,
    program: &[u8],
    reader: &mut R,
    writer: &mut W,
) -> Status
where
    H: AllocGlobal + Threads + Wait + Clock + Sync,
    G: Gate + Sync,
    R: Read,
    W: Write,
    ensures { EndsEach source order.now program.now (R.remaining reader.old) (R.remaining reader.new) (W.contents writer.old) (W.contents writer.new) result }
{
    let count = LineCount::new();
    let threads = LineThreads {
        rt,
        alloc: rt.alloc(),
        count: &count,
    };
    let made = obey_each(&threads, gate, source, order, program, reader, writer);
    finish(made, writer)
}

/// Like `session`, for a program and lines that are read apart from it. The answer to a line is written as soon as it and those before it are there. For
/// another order than that of `--each` it is a session that reads the program alone.
pub fn each_session<H, G, R, W>(
    rt: &H,
    gate: &G,
    order: Order,
    program: Vec<u8>,
    reader: &mut R,
    writer: &mut W,
) -> Status
where
    H: AllocGlobal + Threads + Wait + Clock + Sync,
    G: Gate + Sync,
    R: Read,
    W: Write,
    ensures { EndsEachSession order program.items
        (R.remaining reader.old) (R.remaining reader.new) (W.contents writer.old) (W.contents writer.new) result }
{
    match order {
        Order::Each(source, order) => {
            answer_lines(rt, gate, source, &order, &program, reader, writer)
        }
        other => {
            let given = Given::alone(&program);
            write_reply(reply_to(rt, rt.alloc(), gate, other, given), writer)
        }
    }
}
