//! The reply to a program and the lines after it, which threads answer.

ghost use Rattle.std.specs.Prelude.{IfOk};
ghost use Rattle.std.specs.Thread.{IsSync};
ghost use Rattle.tw_each.specs.Reply.{RepliesByEach};
ghost use Rattle.tw_source.specs.Reply.{reply};

use crate::line_progress::LineProgress;
use std::alloc::{AllocError, Global};
use std::sync::Wait;
use std::thread::{Threads, join};
use std::time::Clock;
use tw_each::{LineCount, LineThreads, each_reply};
use tw_order::{EachOrder, Source};
use tw_source::Reply;
use tw_workers::Gate;

/// Returns the reply to a program and the lines after it, which the observer monitors. Without a thread for it, it is called after the last line.
pub fn lines_reply<H: Threads + Wait + Clock + Sync, G: Gate + Sync>(
    rt: &H,
    alloc: Global,
    gate: &G,
    source: Source,
    order: &EachOrder,
    input: &[u8],
) -> Result<Reply, AllocError>
    ensures { IfOk result (λ r. RepliesByEach source order.now input.now (reply r.text.items r.close)) }
{
    let count = LineCount::new();
    let count = &count;
    let threads = LineThreads { rt, alloc, count };
    let monitor = move ||
        requires { IsSync H.row × IsSync G.row }
    { gate.monitor(rt, &LineProgress { count }) };
    let work = move || -> Result<Reply, AllocError>
        requires { IsSync H.row }
        ensures { IfOk result (λ r. RepliesByEach source order.entry.now input.entry.now (reply r.text.items r.close)) }
    {
        let made = each_reply(&threads, source, order, input);
        count.end();
        made
    };
    let ((), made) = join(rt, monitor, work);
    made
}
