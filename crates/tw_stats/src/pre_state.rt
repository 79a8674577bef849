//! The state before an event, as far as statistics need it.

use crate::dependency::Dependency;
use crate::executor::Executor;
use crate::next::Next;
use tw_code::{DataInstr, Instr};
use tw_machine::{Frame, Plain, Rule};
use tw_types::{Actor, DatumId, Event, RuleNo};

/// The facts about an event in the state before it.
#[derive(Clone, Copy)]
pub struct PreState {
    pub executor: Option<Executor>,
    pub asked: Option<DatumId>,
    pub made: Option<Dependency>,
}

/// Returns the task that executes the event, if the task runs before the event.
fn executor_before(plain: &Plain, event: &Event) -> Option<Executor> {
    match *event {
        Event::Local(actor, _) | Event::Call(actor) | Event::End(actor) => Executor::by(
            plain, actor,
        ),
        Event::Take(_) | Event::Ask(_, _, _) | Event::Deliver(_, _, _, _) | Event::Release(_, _) =>
            { None }
    }
}

/// Returns a rule, if it is pending.
fn rule_at(plain: &Plain, rule: RuleNo) -> Option<&Rule> {
    plain.state().rules().get(&rule.number())
}

/// Returns whether a datum is closed.
fn is_closed(plain: &Plain, id: DatumId) -> bool {
    match plain.state().datum(id) {
        Some(datum) => datum.closed(),
        None => false,
    }
}

/// Returns this datum, if it is closed.
fn if_closed(plain: &Plain, id: DatumId) -> Option<DatumId> {
    if is_closed(plain, id) { Some(id) } else { None }
}

/// Returns the datum about which an engine asks, if it is closed.
fn asked_at(plain: &Plain, event: &Event) -> Option<DatumId> {
    match *event {
        Event::Ask(_, rule, parameter) => {
            let rule = rule_at(plain, rule)?;
            let id = rule.unasked_id(parameter)?;
            if_closed(plain, id)
        }
        Event::Take(_) | Event::Local(_, _) | Event::Call(_) | Event::End(_) => None,
        Event::Deliver(_, _, _, _) | Event::Release(_, _) => None,
    }
}

/// Returns the right register of the datum that an instruction writes.
fn written(instr: &DataInstr) -> Option<u8> {
    match *instr {
        DataInstr::Store { datum, .. } => Some(datum),
        DataInstr::Insert { container, .. } => Some(container),
        DataInstr::InsertValue { map, .. } | DataInstr::AddValue { map, .. } => Some(map),
        DataInstr::DropWrite { right } => Some(right),
        DataInstr::New { .. } | DataInstr::Get { .. } | DataInstr::Look { .. } => None,
        DataInstr::Size { .. } | DataInstr::SubscriptAt { .. } => None,
        DataInstr::GetValue { .. } => None,
        DataInstr::CopyRead { .. } | DataInstr::CopyWrite { .. } | DataInstr::DropRead { .. } =>
            None,
    }
}

/// Returns the datum that an instruction of the task writes.
fn written_by(frame: &Frame, instr: &DataInstr) -> Option<Dependency> {
    let register = written(instr)?;
    let id = frame.right(register)?;
    Some(Dependency::Datum(id))
}

/// Returns what an instruction of the task makes or writes for others.
fn made_by(next: Next, frame: &Frame, instr: &Instr) -> Option<Dependency> {
    match instr {
        Instr::Data(instr) => written_by(frame, instr),
        Instr::Rule(_) => Some(Dependency::Rule(next.rule())),
        Instr::Put(_) => Some(Dependency::Task(next.task())),
        Instr::Local(_) | Instr::Ret => None,
    }
}

/// Returns what the next instruction of an actor's task makes.
fn made_in(next: Next, plain: &Plain, actor: Actor) -> Option<Dependency> {
    let frame = plain.state().frame(actor)?;
    let procedure = plain
        .program()
        .procedures()
        .get(usize::from(frame.procedure()))?;
    let instr = procedure.code.as_slice().get(frame.place())?;
    made_by(next, frame, instr)
}

/// Returns what an event makes or writes for others.
fn made_at(next: Next, plain: &Plain, event: &Event) -> Option<Dependency> {
    match *event {
        Event::Call(actor) => made_in(next, plain, actor),
        Event::Release(_, _) => Some(Dependency::Task(next.task())),
        Event::Take(_) | Event::Local(_, _) | Event::End(_) => None,
        Event::Ask(_, _, _) | Event::Deliver(_, _, _, _) => None,
    }
}

impl PreState {
    /// Returns the facts about an event in the machine's current state. Call it before the event is executed.
    pub fn of(next: Next, plain: &Plain, event: &Event) -> PreState {
        PreState {
            executor: executor_before(plain, event),
            asked: asked_at(plain, event),
            made: made_at(next, plain, event),
        }
    }
}
