//! A trace, gathered event by event for its timeline.

ghost use Rattle.std.specs.Prelude.{◌≤◌};

use crate::drawing::{Bar, Drawing, Mark, Place, Thread, Wait};
use std::alloc::{AllocError, Global};
use tw_machine::{Plain, actor_of};
use tw_report::{circle_state, ending_line};
use tw_symbols::Symbols;
use tw_types::{Event, Link, TaskNo};

/// The number of the first task that an event makes; task 1 is main.
const FIRST_MADE: u64 = 2;

/// The most rules of a circle that are drawn.
const MOST_RULES: usize = 1000;

/// Returns the number of the actor's first End among these, if a bar has an end.
fn end_of(marks: &[Mark], bar: &Bar) -> Option<u32> {
    let begun = (bar.from as usize).min(marks.len());
    for mark in &marks[begun..] {
        if let Event::End(actor) = mark.event
            && actor == bar.actor
        {
            return Some(mark.number);
        }
    }
    None
}

/// Returns the bars with their ends.
fn all_ended(alloc: Global, marks: &[Mark], bars: &[Bar]) -> Result<Vec<Bar>, AllocError> {
    let mut all = Vec::new(alloc);
    for bar in bars {
        let to = end_of(marks, bar);
        all.push(Bar { to, ..*bar })?;
    }
    Ok(all)
}

/// Returns the event that made a task; `None` for main, which no event makes.
fn maker_of(makers: &[Place], task: TaskNo) -> Option<Place> {
    let index = task.number().checked_sub(FIRST_MADE)?;
    makers.get(index as usize).copied()
}

/// Returns the lines to all bars, each from the event that made the bar's task.
fn threads_to(alloc: Global, makers: &[Place], bars: &[Bar]) -> Result<Vec<Thread>, AllocError> {
    let mut threads = Vec::new(alloc);
    for bar in bars {
        if let Some(from) = maker_of(makers, bar.task) {
            threads.push(Thread {
                task: bar.task,
                from,
                to: Place {
                    actor: bar.actor,
                    number: bar.from,
                },
            })?;
        }
    }
    Ok(threads)
}

/// Returns a circle's rules, a thousand at most, each with the place of the next.
fn waits_of(alloc: Global, links: &[Link]) -> Result<Vec<Wait>, AllocError> {
    let mut waits = Vec::new(alloc);
    let mut from = 0u32;
    for link in &links[..links.len().min(MOST_RULES)] {
        let next = from.saturating_add(1);
        let to = if next as usize == links.len() {
            0
        } else {
            next
        };
        let link = *link;
        waits.push(Wait { from, to, link })?;
        from = next;
    }
    Ok(waits)
}

/// Returns the circle in which the machine is stuck; empty if it isn't stuck in one.
fn waits_at(alloc: Global, plain: &Plain) -> Result<Vec<Wait>, AllocError> {
    match circle_state(alloc, plain)? {
        Some(links) => waits_of(alloc, &links),
        None => Ok(Vec::new(alloc)),
    }
}

/// Returns the words on how a run was cut off, or else on the machine's state.
fn closing_of(
    alloc: Global,
    plain: &Plain,
    cut: Option<&'static str>,
) -> Result<Vec<u8>, AllocError> {
    match cut {
        Some(words) => words.as_bytes().to_vec(alloc),
        None => ending_line(alloc, plain),
    }
}

/// The events of a trace so far, with their bars and the makers of tasks.
#[derive(Drop)]
pub struct TimelineBuilder {
    events: u32,
    marks: Vec<Mark>,
    /// The bars, without their ends.
    bars: Vec<Bar>,
    /// The events that made tasks, by the tasks' numbers from 2 on.
    makers: Vec<Place>,
}

impl TimelineBuilder {
    /// Makes a builder without events, at an opening.
    pub fn new(alloc: Global) -> TimelineBuilder {
        TimelineBuilder {
            events: 0,
            marks: Vec::new(alloc),
            bars: Vec::new(alloc),
            makers: Vec::new(alloc),
        }
    }

    /// Adds the bar of the task that an event has taken, if it has taken one.
    fn begin(&mut self, plain: &Plain, mark: &Mark) -> Result<(), AllocError> {
        if let Event::Take(actor) = mark.event
            && let Some(frame) = plain.state().frame(actor)
        {
            self.bars.push(Bar {
                task: frame.task(),
                procedure: frame.procedure(),
                actor,
                from: mark.number,
                to: None,
            })?;
        }
        Ok(())
    }

    /// Adds the event that led to the machine's current state. It made the next task, if that task waits now.
    pub fn add_event(&mut self, plain: &Plain, event: Event) -> Result<(), AllocError> {
        self.events = self.events.saturating_add(1);
        let number = self.events;
        let mark = Mark { number, event };
        self.marks.push(mark)?;
        self.begin(plain, &mark)?;
        let next = (self.makers.len() as u64).saturating_add(FIRST_MADE);
        if plain.state().tasks().contains_key(&next) {
            let actor = actor_of(&event);
            self.makers.push(Place { actor, number })?;
        }
        Ok(())
    }

    /// Returns the drawing of the events that have led to the machine's current state, with these names for its procedures. `cut` has the words on how
    /// the run was cut off, if it was.
    pub fn drawing(
        self,
        alloc: Global,
        plain: &Plain,
        names: Symbols,
        cut: Option<&'static str>,
    ) -> Result<Drawing, AllocError> {
        let bars = all_ended(alloc, &self.marks, &self.bars)?;
        let threads = threads_to(alloc, &self.makers, &bars)?;
        let waits = waits_at(alloc, plain)?;
        let closing = closing_of(alloc, plain, cut)?;
        Ok(Drawing {
            layout: plain.layout(),
            names,
            events: self.events,
            marks: self.marks,
            bars,
            threads,
            closing,
            rules: waits.len().min(MOST_RULES) as u32,
            waits,
        })
    }
}
