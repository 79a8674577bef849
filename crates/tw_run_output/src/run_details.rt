//! The lines after the report of a run whose program was read from a text.

ghost use Rattle.std.specs.Prelude.{◌≡◌, ◌++◌, ℕ, List, OnOk};
ghost use Rattle.std.specs.Option.{option_copied};
ghost use Rattle.tw_types.specs.declared.event.Event.{Event};
ghost use Rattle.tw_types.specs.Outcome.{Went};
ghost use Rattle.tw_code.specs.declared.procedure.Procedure.{Procedure as Section};
ghost use Rattle.tw_code.specs.machine.State.{State};
ghost use Rattle.tw_order.specs.declared.runs.RunOrder.{RunOrder as AnOrder};
ghost use Rattle.tw_replay_output.specs.Circle.{reached_from};
ghost use Rattle.tw_replay_output.specs.Stuck.{IsReplayOf};
ghost use Rattle.tw_run_output.specs.Over.{IsFinished, stuck_source};
ghost use Rattle.tw_run_output.specs.Run.{AreReportedDetails, start_of};
ghost use Rattle.tw_source.specs.Source.{MayBeSource, text_of};

use crate::ended::{Begun, begin};
use std::alloc::{AllocError, Global};
use tw_order::RunOrder;
use tw_pool::{Closing, History};
use tw_replay_output::{Replaying, play, put_circle};
use tw_source::SourceText;
use tw_verify::Verified;

/// Returns the text of a stuck run's program, if it was read from one.
fn stuck_source<'s>(
    source: &'s Option<SourceText<'s>>,
    closing: Closing,
) -> Option<&'s SourceText<'s>>
    ensures { option_copied result ≡ stuck_source source.now closing }
{
    match closing {
        Closing::Stuck(_) => source.as_ref(),
        Closing::Quiet | Closing::Limit | Closing::Stopped => None,
    }
}

/// Adds the lines after a report. A replay of the run has reached its state.
pub fn put_closing_details(
    alloc: Global,
    out: &mut Vec<u8>,
    source: &Option<SourceText<'_>>,
    replaying: &Replaying,
    closing: Closing,
) -> Result<(), AllocError>
    ensures { OnOk result ((program : List Section) (order : AnOrder) (events : List Event) (s : State) → MayBeSource source.now program
        → IsReplayOf (start_of program order) events replaying.now → reached_from (start_of program order) events ≡ Went s
        → (more : List ℕ) × AreReportedDetails (text_of source.now) program order events s closing more × (out.new.items ≡ out.old.items ++ more)) }
{
    match stuck_source(source, closing) {
        Some(source) => put_circle(alloc, out, source, replaying),
        None => Ok(()),
    }
}

/// Adds the lines after a report. The events of a stuck run are executed once more, since no state says where its rules were made.
pub fn put_run_details(
    alloc: Global,
    out: &mut Vec<u8>,
    source: &Option<SourceText<'_>>,
    order: &RunOrder,
    verified: Verified,
    history: &History,
    closing: Closing,
) -> Result<(), AllocError>
    requires finished { IsFinished verified.program order.now history.now.events }
    requires source { MayBeSource source.now verified.program }
    ensures { OnOk result ((s : State) → reached_from (start_of verified.program order.now) history.now.events ≡ Went s
        → (more : List ℕ) × AreReportedDetails (text_of source.now) verified.program order.now history.now.events s closing more × (out.new.items ≡ out.old.items ++ more)) }
{
    let Some(_) = stuck_source(source, closing) else {
        return Ok(());
    };
    let Begun { first, events } = begin(alloc, order, verified, history)?;
    match play(alloc, first, &events)? {
        Ok(replaying) => put_closing_details(alloc, out, source, &replaying, closing),
        Err(_) => unreachable!(),
    }
}
