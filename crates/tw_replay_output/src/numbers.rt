//! Output of `replay --stats`, and of `run --stats` about its events.

ghost use Rattle.std.specs.Prelude.{◌≡◌, ◌≤◌, ◌++◌, IfOk, OnOk, length};
ghost use Rattle.tw_code.specs.machine.Bounds.{AreBelow, opening_bound};
ghost use Rattle.tw_order.specs.declared.runs.Answer.TheVariants.{Numbers};
ghost use Rattle.tw_replay_output.specs.Counted.{AreShort, IsCounting};
ghost use Rattle.tw_replay_output.specs.Replay.{IsNumbered};
ghost use Rattle.tw_replay_output.specs.Stuck.{IsAnswerFrom};
ghost use Rattle.tw_source.specs.Reply.{reply};

use crate::disabled::Unplayed;
use crate::replay::close_of;
use crate::replay_details::{with_details, with_reason};
use crate::replaying::{Replaying, unplayed};
use std::alloc::{AllocError, Global};
use tw_code::Program;
use tw_machine::Plain;
use tw_report::report_state;
use tw_source::{Reply, SourceText};
use tw_stats::{Stats, StatsBuilder};
use tw_symbols::Symbols;
use tw_types::Event;
use tw_verify::{Verified, VerifyError, verify};

/// A program, with the budgets of its procedures if it is accepted.
#[derive(Drop)]
pub struct Budgeted {
    pub program: Program,
    pub budgets: Vec<u64>,
}

/// A replay of events that were executed, and their statistics.
#[derive(Drop)]
pub struct Counted {
    pub replaying: Replaying,
    pub stats: Stats,
}

/// Returns the budgets of the procedures, one each.
pub fn budgets_of(alloc: Global, verified: &Verified) -> Result<Vec<u64>, AllocError> {
    let mut budgets = Vec::new(alloc);
    for number in 0..verified.program().procedures().len() {
        budgets.push(verified.budget(number))?;
    }
    Ok(budgets)
}

/// Verifies a program, and returns it with its budgets. If it isn't accepted, there are none.
pub fn with_budgets(alloc: Global, program: Program) -> Result<Budgeted, AllocError>
    ensures { IfOk result (λ b. b.program ≡ program) }
{
    match verify(alloc, program) {
        Ok(verified) => {
            let budgets = budgets_of(alloc, &verified)?;
            Ok(Budgeted {
                program: verified.into_program(),
                budgets,
            })
        }
        Err(refused) => match refused.no {
            VerifyError::NoMemory => Err(AllocError),
            _ => Ok(Budgeted {
                program: refused.program,
                budgets: Vec::new(alloc),
            }),
        },
    }
}

/// Adds bytes.
pub fn put_bytes(out: &mut Vec<u8>, bytes: &[u8]) -> Result<(), AllocError>
    ensures { OnOk result (out.new.items ≡ out.old.items ++ bytes.now) }
{
    out.extend_from_slice(bytes)
}

/// Returns the report of the machine's state, and the statistics of the events that led there.
fn numbers_reply(
    alloc: Global,
    plain: &Plain,
    stats: &Stats,
    names: &Symbols,
    budgets: &[u64],
) -> Result<Reply, AllocError>
    ensures { IfOk result (λ r. IsNumbered plain.now.program plain.now.state (reply r.text.items r.close)) }
{
    let close = close_of(plain.ending());
    let mut text = report_state(alloc, plain)?;
    let numbers = stats.text(alloc, plain, names, budgets)?;
    put_bytes(&mut text, &numbers)?;
    Ok(Reply {
        text,
        close,
        more: None,
    })
}

/// Executes the events and counts them. If one isn't enabled or traps, returns the reply to the first such event.
pub fn count(
    alloc: Global,
    first: Plain,
    events: &[Event],
) -> Result<Result<Counted, Unplayed>, AllocError>
    requires below { AreBelow opening_bound first.state }
    requires sizes { AreShort events.now }
    requires few { length events.now ≤ 16777217 }
    ensures { IfOk result (IsCounting first events.now) }
{
    let mut replaying = Replaying::new(alloc, first);
    let mut stats_builder = StatsBuilder::new(alloc);
    for (index, event) in events.iter().enumerate() {
        let pre_state = stats_builder.pre_state(&replaying.plain, event);
        match replaying.step(alloc, *event) {
            Ok(()) => stats_builder.count_event(&replaying.plain, event, &pre_state)?,
            Err(stopped) => {
                let failed = unplayed(alloc, &replaying.plain, *event, stopped, index + 1)?;
                return Ok(Err(failed));
            }
        }
    }
    Ok(Ok(Counted {
        replaying,
        stats: stats_builder.finish(),
    }))
}

/// Returns the report, the statistics and the details, or the reply to the first event that isn't enabled or traps.
pub fn counted_reply(
    alloc: Global,
    source: &Option<SourceText<'_>>,
    first: Plain,
    events: &[Event],
    names: &Symbols,
    budgets: &[u64],
) -> Result<Reply, AllocError>
    requires below { AreBelow opening_bound first.state }
    requires sizes { AreShort events.now }
    requires few { length events.now ≤ 16777217 }
    ensures { IfOk result (λ r. IsAnswerFrom source.now Numbers first events.now (reply r.text.items r.close)) }
{
    match count(alloc, first, events)? {
        Ok(counted) => {
            let answered = numbers_reply(
                alloc,
                &counted.replaying.plain,
                &counted.stats,
                names,
                budgets,
            )?;
            with_details(alloc, source, &counted.replaying, answered)
        }
        Err(failed) => with_reason(alloc, source, failed),
    }
}
