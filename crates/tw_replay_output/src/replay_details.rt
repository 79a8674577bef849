//! Details after the reply to a replay of a program that was read from a text.

ghost use Rattle.std.specs.Prelude.{◌≡◌, ◌≢◌, ◌==◌, ◌++◌, ℕ, List, IfOk, OnOk};
ghost use Rattle.std.specs.List.{list_any};
ghost use Rattle.tw_types.specs.declared.event.Event.{Event as AnEvent};
ghost use Rattle.tw_code.specs.machine.Ending.{ending};
ghost use Rattle.tw_machine.specs.Opening.{open_error_code};
ghost use Rattle.tw_source.specs.Failure.{coded, failed_with};
ghost use Rattle.tw_source.specs.Reply.{reply};
ghost use Rattle.tw_source.specs.Source.{IsSource, MayBeSource, text_of};
ghost use Rattle.tw_replay_output.specs.Circle.{AreEndingDetails, Start};
ghost use Rattle.tw_replay_output.specs.Replay.{AreRejectionDetails, IsReason, MayExplain};
ghost use Rattle.tw_replay_output.specs.Stuck.{AreStateDetails, IsReplayOf};

use crate::disabled::Unplayed;
use crate::opening::{inputs_refused_reply, opening_failure};
use crate::replaying::Replaying;
use crate::stuck::put_circle;
use std::alloc::{AllocError, Global};
use tw_machine::{OpenError, OpenRefused};
use tw_order::ReplayOrder;
use tw_report::put;
use tw_source::{Position, Reply, SourceText, failed_reply};
use tw_types::Ending;
use tw_visible::visible_bytes;

/// Returns the reply to a program that isn't opened.
pub fn unopened_reply(
    alloc: Global,
    source: &Option<SourceText<'_>>,
    order: &ReplayOrder,
    refused: &OpenRefused,
) -> Result<Reply, AllocError>
    ensures { IfOk result (λ r. (refused.now.no ≢ OpenError.NoMemory) × ((at : Position) × (more : List ℕ)
        × AreRejectionDetails (text_of source.now) refused.now.program.procedures order.now.inputs refused.now.no at more
        × (reply r.text.items r.close ≡ failed_with (coded 79 (open_error_code refused.now.no) at) more))) }
{
    match refused.no {
        OpenError::NoMemory => Err(AllocError),
        OpenError::MainShape => {
            let failure = opening_failure(refused.no.number(), Position::Nowhere);
            failed_reply(alloc, failure)
        }
        _ => inputs_refused_reply(
            alloc,
            source,
            refused.no.number(),
            refused.program.procedures(),
            order.inputs.as_slice(),
        ),
    }
}

/// Adds the details of the state that a replay has reached: if it is stuck, the lines of the circle.
fn put_ending_details(
    alloc: Global,
    out: &mut Vec<u8>,
    source: &SourceText<'_>,
    replaying: &Replaying,
) -> Result<(), AllocError>
    ensures { OnOk result ((start : Start) (events : List AnEvent) → IsSource source.now start.program → IsReplayOf start events replaying.now
        → (more : List ℕ) × AreEndingDetails source.now.text.now start events replaying.now.plain.state (ending replaying.now.plain.state) more × (out.new.items ≡ out.old.items ++ more)) }
{
    match replaying.plain.ending() {
        Some(Ending::Stuck(_)) => put_circle(alloc, out, source, replaying),
        Some(Ending::Quiet) => Ok(()),
        None => Ok(()),
    }
}

/// Adds the details of the state that a replay has reached. Without a text there are none.
pub fn put_state_details(
    alloc: Global,
    out: &mut Vec<u8>,
    source: &Option<SourceText<'_>>,
    replaying: &Replaying,
) -> Result<(), AllocError>
    ensures { OnOk result ((start : Start) (events : List AnEvent) → MayBeSource source.now start.program → IsReplayOf start events replaying.now
        → (more : List ℕ) × AreStateDetails (text_of source.now) start events replaying.now.plain.state more × (out.new.items ≡ out.old.items ++ more)) }
{
    match source {
        Some(source) => put_ending_details(alloc, out, source, replaying),
        None => Ok(()),
    }
}

/// Returns whether a text has a line feed.
fn has_feed(text: &[u8]) -> bool
    ensures { result ≡ list_any (λ b. b == 10) text.now }
{
    text.iter().any(|byte| *byte == b'\n')
}

/// Adds a line that says why an event failed, without hidden characters. There is none if nothing is said, or more than one line.
fn put_why(alloc: Global, out: &mut Vec<u8>, why: &str) -> Result<(), AllocError>
    ensures { OnOk result ((more : List ℕ) × IsReason more × (out.new.items ≡ out.old.items ++ more)) }
{
    let line = visible_bytes(alloc, why.as_bytes())?;
    if line.is_empty() || has_feed(&line) {
        return Ok(());
    }
    out.extend_from_slice(&line)?;
    put(out, "\n")
}

/// Adds why an event failed. Without a text that isn't said.
fn put_reason(
    alloc: Global,
    out: &mut Vec<u8>,
    source: &Option<SourceText<'_>>,
    why: &str,
) -> Result<(), AllocError>
    ensures { OnOk result ((more : List ℕ) × MayExplain (text_of source.now) more × (out.new.items ≡ out.old.items ++ more)) }
{
    match source {
        Some(_) => put_why(alloc, out, why),
        None => Ok(()),
    }
}

/// Returns the reply to an event that failed, with why it did.
pub fn with_reason(
    alloc: Global,
    source: &Option<SourceText<'_>>,
    failed: Unplayed,
) -> Result<Reply, AllocError>
    ensures { IfOk result (λ r. (more : List ℕ) × MayExplain (text_of source.now) more × (reply r.text.items r.close ≡ reply (failed.reply.text.items ++ more) failed.reply.close)) }
{
    let Unplayed { reply, why } = failed;
    let Reply {
        mut text,
        close,
        more,
    } = reply;
    put_reason(alloc, &mut text, source, why.as_str())?;
    Ok(Reply { text, close, more })
}

/// Returns an answer with the details of the state that a replay has reached.
pub fn with_details(
    alloc: Global,
    source: &Option<SourceText<'_>>,
    replaying: &Replaying,
    answered: Reply,
) -> Result<Reply, AllocError>
    ensures { IfOk result (λ r. (start : Start) (events : List AnEvent) → MayBeSource source.now start.program → IsReplayOf start events replaying.now
        → (more : List ℕ) × AreStateDetails (text_of source.now) start events replaying.now.plain.state more
        × (reply r.text.items r.close ≡ reply (answered.text.items ++ more) answered.close)) }
{
    let Reply {
        mut text,
        close,
        more,
    } = answered;
    put_state_details(alloc, &mut text, source, replaying)?;
    Ok(Reply { text, close, more })
}
