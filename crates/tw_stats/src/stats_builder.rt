//! Statistics of a trace, gathered event by event.

ghost use Rattle.std.specs.Prelude.{OnOk};
ghost use Rattle.tw_stats.specs.Sums.{AddsUp, IsTally};

use crate::chains::Chains;
use crate::counts::Counts;
use crate::dependencies::{needs, provides};
use crate::executor::Executor;
use crate::next::Next;
use crate::pre_state::PreState;
use crate::share::share_of;
use crate::stats::Stats;
use crate::table::Table;
use std::alloc::{AllocError, Global};
use tw_machine::{Plain, actor_of};
use tw_types::Event;

/// The statistics of a trace so far.
#[derive(Drop)]
pub struct StatsBuilder {
    counts: Counts,
    most: Table,
    actors: Table,
    chains: Chains,
    next: Next,
}

/// Returns the task that executed the event which led to the machine's current state.
fn executor_after(plain: &Plain, event: &Event, before: &Option<Executor>) -> Option<Executor> {
    match *event {
        Event::Take(actor) => Executor::by(plain, actor),
        Event::Local(_, _) | Event::Call(_) | Event::End(_) => *before,
        Event::Ask(_, _, _) | Event::Deliver(_, _, _, _) | Event::Release(_, _) => *before,
    }
}

/// Returns the procedure of an event's task; 0 if no task executes the event.
fn procedure_of(executor: &Option<Executor>) -> u64 {
    match executor {
        Some(executor) => u64::from(executor.procedure),
        None => 0,
    }
}

/// Raises the most instructions of a procedure's task to what a task has executed after these more.
fn raise(
    most: &mut Table,
    executor: &Option<Executor>,
    instructions: u64,
) -> Result<(), AllocError> {
    match executor {
        Some(executor) => most.raise(
            u64::from(executor.procedure),
            executor.spent.saturating_add(instructions),
        ),
        None => Ok(()),
    }
}

impl StatsBuilder {
    /// Makes a builder without events, at an opening.
    pub fn new(alloc: Global) -> StatsBuilder
        ensures { IsTally result }
    {
        StatsBuilder {
            counts: Counts::new(alloc),
            most: Table::new(alloc),
            actors: Table::new(alloc),
            chains: Chains::new(alloc),
            next: Next::first(),
        }
    }

    /// Returns the facts about an event in the state before it. Call it before the event is executed.
    pub fn pre_state(&self, plain: &Plain, event: &Event) -> PreState {
        PreState::of(self.next, plain, event)
    }

    /// Counts the event that led to the machine's current state; these facts are from the state before it.
    pub fn count_event(
        &mut self,
        plain: &Plain,
        event: &Event,
        pre_state: &PreState,
    ) -> Result<(), AllocError>
        ensures { OnOk result (IsTally self.old → IsTally self.new) }
    {
        let executor = executor_after(plain, event, &pre_state.executor);
        let share = share_of(event);
        self.counts.add(share, procedure_of(&executor))?;
        raise(&mut self.most, &executor, share.instructions)?;
        let actor = plain.layout().index_of(actor_of(event));
        self.actors.add(actor as u64, 1)?;
        let needed = needs(event, &executor, &pre_state.asked);
        let brought = provides(event, &executor, &pre_state.made);
        self.chains.add(share.steps, &needed, &brought)?;
        self.next.advance_past(&pre_state.made);
        Ok(())
    }

    /// Returns the statistics of all events that were counted.
    pub fn finish(self) -> Stats
        requires { IsTally self }
        ensures { AddsUp result }
    {
        Stats {
            counts: self.counts,
            most: self.most,
            actors: self.actors,
            chain: self.chains.longest,
        }
    }
}
