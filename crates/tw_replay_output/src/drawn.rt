//! Output of `picture`.

ghost use Rattle.std.specs.Prelude.{◌≤◌, IfOk, length};
ghost use Rattle.tw_code.specs.machine.Bounds.{AreBelow, opening_bound};
ghost use Rattle.tw_replay_output.specs.Counted.{AreShort};
ghost use Rattle.tw_replay_output.specs.Replay.{IsDrawn, IsPicture};
ghost use Rattle.tw_source.specs.Reply.{reply};

use crate::replay::{close_of, stopped_reply};
use crate::replaying::Replaying;
use std::alloc::{AllocError, Global};
use tw_machine::Plain;
use tw_order::EventRange;
use tw_source::Reply;
use tw_symbols::Symbols;
use tw_timeline::{Settings, TimelineBuilder, timeline};
use tw_types::Event;

/// Returns the timeline of these of the events that led to the machine's state.
fn picture_reply(
    alloc: Global,
    shown: EventRange,
    names: Symbols,
    plain: &Plain,
    timeline_builder: TimelineBuilder,
    cut: Option<&'static str>,
) -> Result<Reply, AllocError>
    ensures { IfOk result (λ r. IsPicture plain.now.state (reply r.text.items r.close)) }
{
    let close = close_of(plain.ending());
    let drawing = timeline_builder.drawing(alloc, plain, names, cut)?;
    let text = timeline(alloc, &drawing, Settings::between(shown.from, shown.to))?;
    Ok(Reply {
        text,
        close,
        more: None,
    })
}

/// Executes the events and draws these of them, with the words on how the run was cut off, if it was. If an event isn't enabled or traps, the reply
/// reports the first such event.
pub fn draw(
    alloc: Global,
    shown: EventRange,
    names: Symbols,
    first: Plain,
    events: &[Event],
    cut: Option<&'static str>,
) -> Result<Reply, AllocError>
    requires below { AreBelow opening_bound first.state }
    requires sizes { AreShort events.now }
    requires few { length events.now ≤ 16777217 }
    ensures { IfOk result (λ r. IsDrawn first events.now (reply r.text.items r.close)) }
{
    let mut replaying = Replaying::new(alloc, first);
    let mut timeline_builder = TimelineBuilder::new(alloc);
    for (index, event) in events.iter().enumerate() {
        match replaying.step(alloc, *event) {
            Ok(()) => timeline_builder.add_event(&replaying.plain, *event)?,
            Err(stopped) => return stopped_reply(alloc, stopped, index + 1),
        }
    }
    picture_reply(alloc, shown, names, &replaying.plain, timeline_builder, cut)
}
