//! The dependencies of one event.

use crate::dependency::Dependency;
use crate::executor::Executor;
use tw_types::{DatumId, Event};

/// At most two dependencies.
#[derive(Clone, Copy)]
pub struct Dependencies {
    pub first: Option<Dependency>,
    pub second: Option<Dependency>,
}

/// Returns the task that executed an event, as a dependency, if one did.
fn task_of(executor: &Option<Executor>) -> Option<Dependency> {
    match executor {
        Some(executor) => Some(Dependency::Task(executor.task)),
        None => None,
    }
}

/// Returns a datum as a dependency, if there is one.
fn datum(id: &Option<DatumId>) -> Option<Dependency> {
    match id {
        Some(id) => Some(Dependency::Datum(*id)),
        None => None,
    }
}

/// Returns what an event waits for.
pub fn needs(event: &Event, executor: &Option<Executor>, asked: &Option<DatumId>) -> Dependencies {
    match *event {
        Event::Take(_) | Event::Local(_, _) | Event::Call(_) | Event::End(_) => Dependencies {
            first: task_of(executor),
            second: None,
        },
        Event::Ask(_, rule, _) => Dependencies {
            first: Some(Dependency::Rule(rule)),
            second: datum(asked),
        },
        Event::Deliver(_, datum, _, _) => Dependencies {
            first: Some(Dependency::Datum(datum)),
            second: None,
        },
        Event::Release(_, rule) => Dependencies {
            first: Some(Dependency::Rule(rule)),
            second: Some(Dependency::Answer(rule)),
        },
    }
}

/// Returns what an event provides for others.
pub fn provides(
    event: &Event,
    executor: &Option<Executor>,
    made: &Option<Dependency>,
) -> Dependencies {
    match *event {
        Event::Take(_) | Event::Local(_, _) | Event::End(_) => Dependencies {
            first: task_of(executor),
            second: None,
        },
        Event::Call(_) => Dependencies {
            first: task_of(executor),
            second: *made,
        },
        Event::Ask(_, rule, _) | Event::Deliver(_, _, rule, _) => Dependencies {
            first: Some(Dependency::Answer(rule)),
            second: None,
        },
        Event::Release(_, _) => Dependencies {
            first: None,
            second: *made,
        },
    }
}
