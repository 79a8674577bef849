//! Rejects programs whose bounds are above a cap.

ghost use Rattle.std.specs.Prelude.{◌≡◌, [], true, IfOk};
ghost use Rattle.tw_program_output.specs.Admission.{AreExcessLines, IsJudged, StaysWithinCaps, excess, excess_bound, excess_line, excess_lines, has_cap, is_within};
ghost use Rattle.tw_source.specs.Failure.{coded, failed_with};
ghost use Rattle.tw_source.specs.Reply.{reply};
ghost use Rattle.tw_source.specs.declared.failure.Position.TheVariants as position;
ghost use Rattle.tw_writer.specs.Appended.{IsAppended};

use std::alloc::{AllocError, Global};
use tw_bounds::{Bound, LimitedBounds, largest_budget, least_bounds};
use tw_order::{Caps, EventLimit};
use tw_source::{Failure, Position, Reply, detailed_reply};
use tw_verify::Verified;
use tw_writer::{Piece, Writer};

/// Returns whether a bound is at most a cap.
fn is_within(bound: Bound, most: u64) -> bool
    ensures { result ≡ is_within bound most }
{
    match bound {
        Bound::AtMost(number) => number <= most,
        Bound::Over | Bound::Endless => u64::MAX <= most,
    }
}

/// Adds a bound that is above its cap.
fn put_excess_bound(out: &mut Writer, bound: Bound)
    ensures { IsAppended out.old out.new (excess_bound bound) }
{
    match bound {
        Bound::AtMost(number) => out.put_numbered("bound ", number as usize),
        Bound::Over => out.put("bound over 1000000000000"),
        Bound::Endless => out.put("no bound"),
    }
}

/// Adds the line for a bound that is above its cap.
fn put_excess_line(out: &mut Writer, kind: &str, bound: Bound, most: u64)
    ensures { IsAppended out.old out.new (excess_line kind.now bound most) }
{
    out.put_all(&[Piece::Text(kind), Piece::Text(": ")]);
    put_excess_bound(out, bound);
    out.put_all(&[
        Piece::Text(", at most "),
        Piece::Number(most as usize),
        Piece::Text("\n"),
    ]);
}

/// Adds the line for a bound, if it is above its cap.
fn put_excess(out: &mut Writer, kind: &str, bound: Bound, most: u64)
    ensures { IsAppended out.old out.new (excess kind.now bound most) }
{
    if !is_within(bound, most) {
        put_excess_line(out, kind, bound, most);
    }
}

/// Adds the lines for the bounds that are above their caps.
fn put_excess_lines(out: &mut Writer, caps: Caps, bounds: LimitedBounds, budget: u64)
    ensures { IsAppended out.old out.new (excess_lines caps bounds budget) }
{
    put_excess(out, "tasks", bounds.tasks, caps.tasks);
    put_excess(out, "instructions", bounds.instructions, caps.instructions);
    put_excess(out, "data", bounds.data, caps.data);
    put_excess(out, "bytes", bounds.bytes, caps.bytes);
    put_excess(out, "budget", Bound::AtMost(budget), caps.budget);
    put_excess(out, "members", bounds.members, caps.members);
    put_excess(out, "rules", bounds.rules, caps.rules);
}

/// Returns whether a cap is given.
fn has_cap(caps: Caps) -> bool
    ensures { result ≡ has_cap caps }
{
    caps.tasks < u64::MAX
        || caps.instructions < u64::MAX
        || caps.data < u64::MAX
        || caps.bytes < u64::MAX
        || caps.budget < u64::MAX
        || caps.members < u64::MAX
        || caps.rules < u64::MAX
}

/// Returns the limit as a number of events.
fn events_in(limit: Option<EventLimit>) -> Option<u32>
    ensures { result ≡ limit }
{
    match limit {
        Some(most) => Some(most.events() as u32),
        None => None,
    }
}

/// Returns the lines for the bounds of the program that are above their caps.
fn capped_text(
    alloc: Global,
    verified: &Verified,
    limit: Option<EventLimit>,
    caps: Caps,
) -> Result<Vec<u8>, AllocError>
    ensures lines { IfOk result (λ text. AreExcessLines true verified.now.program limit caps text.items) }
    ensures admitted { IfOk result (λ text. text.items ≡ [] → StaysWithinCaps verified.now.program limit caps) }
{
    let bounds = least_bounds(alloc, verified, events_in(limit))?;
    let mut text = Writer::new(alloc);
    put_excess_lines(&mut text, caps, bounds, largest_budget(verified));
    text.finish()
}

/// Returns the lines for the bounds of the program that are above their caps, if a cap is given. The program is admitted if there are
/// none.
pub(crate) fn excess_text(
    alloc: Global,
    verified: &Verified,
    limit: Option<EventLimit>,
    caps: Caps,
) -> Result<Vec<u8>, AllocError>
    ensures lines { IfOk result (λ text. AreExcessLines (has_cap caps) verified.now.program limit caps text.items) }
    ensures admitted { IfOk result (λ text. text.items ≡ [] → StaysWithinCaps verified.now.program limit caps) }
{
    if has_cap(caps) {
        capped_text(alloc, verified, limit, caps)
    } else {
        Ok(Vec::new(alloc))
    }
}

/// Returns whether no bound of the program is above its cap.
pub fn is_within_caps(
    alloc: Global,
    verified: &Verified,
    limit: Option<EventLimit>,
    caps: Caps,
) -> Result<bool, AllocError>
    ensures { IfOk result (IsJudged verified.now.program limit caps) }
{
    let lines = excess_text(alloc, verified, limit, caps)?;
    Ok(lines.is_empty())
}

/// Returns the reply to a program that isn't admitted, with these lines.
pub(crate) fn excess_reply(alloc: Global, lines: &[u8]) -> Result<Reply, AllocError>
    ensures { IfOk result (λ r. reply r.text.items r.close ≡ failed_with (coded 79 7 position.Nowhere) lines.now) }
{
    detailed_reply(alloc, Failure::coded(b'O', 7, Position::Nowhere), lines)
}
