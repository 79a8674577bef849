//! Says why an event isn't enabled.

use std::alloc::{AllocError, Global};
use tw_code::Instr;
use tw_machine::{Frame, Plain, Rule, Stopped, actor_of};
use tw_source::Reply;
use tw_types::{Actor, Event, Layout, RuleNo};

/// The reply to an event that isn't enabled or traps, and a line that says why it isn't enabled, without a line feed.
#[derive(Drop)]
pub struct Unplayed {
    pub reply: Reply,
    pub why: String,
}

/// Returns the name of an actor.
fn name_of(alloc: Global, actor: Actor) -> Result<String, AllocError> {
    let number = actor.number();
    match actor {
        Actor::Engine(_) => format!(in alloc; "e{number}"),
        Actor::Server(_) => format!(in alloc; "s{number}"),
        Actor::Worker(_) => format!(in alloc; "w{number}"),
    }
}

/// Says which option makes a layout that has an actor, or that none does.
fn missing_line(alloc: Global, layout: Layout, actor: Actor) -> Result<String, AllocError> {
    let (option, count, most) = match actor {
        Actor::Engine(_) => ("--engines", layout.engines(), Layout::MAX_ENGINES),
        Actor::Server(_) => ("--servers", layout.servers(), Layout::MAX_SERVERS),
        Actor::Worker(_) => ("--workers", layout.workers(), Layout::MAX_WORKERS),
    };
    let name = name_of(alloc, actor)?;
    if actor.number() >= most {
        return format!(in alloc; "there is no {name}, not even with {option} {most}");
    }
    let needed = u32::from(actor.number()) + 1;
    format!(in alloc; "there is no {name} with {option} {count}; {option} {needed} has it")
}

/// Returns the instruction that a task executes next.
fn next_instr<'a>(plain: &'a Plain, frame: &Frame) -> Option<&'a Instr> {
    let procedures = plain.program().procedures();
    let procedure = procedures.get(usize::from(frame.procedure()))?;
    procedure.code.as_slice().get(frame.place())
}

/// Says which instruction a task executes next, and by which event.
fn next_line(
    alloc: Global,
    plain: &Plain,
    name: &str,
    frame: &Frame,
) -> Result<String, AllocError> {
    let (place, procedure) = (frame.place(), frame.procedure());
    let event = match next_instr(plain, frame) {
        Some(Instr::Local(_)) => "a local instruction",
        Some(Instr::Ret) => "RET, which is an event `end`",
        _ => "an event `call`",
    };
    format!(in alloc; "at place {place} of procedure {procedure} {name} has {event}")
}

/// Says what an actor's task does in place of its event.
fn task_line(
    alloc: Global,
    plain: &Plain,
    name: &str,
    frame: &Frame,
    event: Event,
) -> Result<String, AllocError> {
    let Event::Local(_, steps) = event else {
        return next_line(alloc, plain, name, frame);
    };
    let there = frame.local_steps(alloc, plain.program().procedures(), steps)?;
    if there == 0 {
        return next_line(alloc, plain, name, frame);
    }
    let (place, procedure) = (frame.place(), frame.procedure());
    format!(in alloc;
        "from place {place} of procedure {procedure} on {name} has only so many local instructions: {there}"
    )
}

/// Says why an actor takes no task.
fn take_line(alloc: Global, plain: &Plain, actor: Actor, name: &str) -> Result<String, AllocError> {
    match plain.state().frame(actor) {
        Some(_) => format!(in alloc; "the task of {name} hasn't ended"),
        None => format!(in alloc; "no task waits that {name} may take"),
    }
}

/// Says why a rule of an engine isn't released, or doesn't ask for a parameter.
fn stage_line(
    alloc: Global,
    number: RuleNo,
    rule: &Rule,
    parameter: Option<u8>,
) -> Result<String, AllocError> {
    let number = number.number();
    if let Some(parameter) = parameter {
        return format!(in alloc; "rule {number} needn't ask for parameter {parameter}");
    }
    match rule.stages().iter().position(|stage| !stage.is_settled()) {
        Some(parameter) => format!(in alloc; "rule {number} waits for parameter {parameter}"),
        None => Ok(String::new(alloc)),
    }
}

/// Says why an engine does nothing with a rule.
fn rule_line(
    alloc: Global,
    plain: &Plain,
    engine: u8,
    number: RuleNo,
    parameter: Option<u8>,
) -> Result<String, AllocError> {
    if plain.state().frame(Actor::Engine(engine)).is_some() {
        return format!(in alloc; "the task of e{engine} hasn't ended");
    }
    match plain.state().rules().get(&number.number()) {
        Some(rule) if rule.engine() == engine => stage_line(alloc, number, rule, parameter),
        Some(rule) => {
            let (number, engine) = (number.number(), rule.engine());
            format!(in alloc; "rule {number} is of e{engine}")
        }
        None => {
            let number = number.number();
            format!(in alloc; "rule {number} isn't pending")
        }
    }
}

/// Says why an event isn't enabled, by what the machine's state has instead.
fn line_of(alloc: Global, plain: &Plain, event: Event) -> Result<String, AllocError> {
    let actor = actor_of(&event);
    if !plain.layout().has(actor) {
        return missing_line(alloc, plain.layout(), actor);
    }
    let name = name_of(alloc, actor)?;
    match event {
        Event::Take(_) => take_line(alloc, plain, actor, name.as_str()),
        Event::Ask(engine, rule, parameter) => {
            rule_line(alloc, plain, engine, rule, Some(parameter))
        }
        Event::Release(engine, rule) => rule_line(alloc, plain, engine, rule, None),
        Event::Deliver(server, datum, rule, parameter) => {
            let (datum, rule) = (datum.number(), rule.number());
            format!(in alloc;
                "s{server} has no notice of datum {datum} for parameter {parameter} of rule {rule}"
            )
        }
        Event::Local(_, _) | Event::Call(_) | Event::End(_) => match plain.state().frame(actor) {
            Some(frame) => task_line(alloc, plain, name.as_str(), frame, event),
            None => format!(in alloc; "{name} has no task"),
        },
    }
}

/// Returns a line that says why an event failed, if it isn't enabled.
pub fn why_stopped(
    alloc: Global,
    plain: &Plain,
    event: Event,
    stopped: Stopped,
) -> Result<String, AllocError> {
    match stopped {
        Stopped::NotEnabled => line_of(alloc, plain, event),
        Stopped::Trap(_) | Stopped::NoMemory => Ok(String::new(alloc)),
    }
}
