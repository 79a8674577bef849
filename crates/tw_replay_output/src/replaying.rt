//! Replays of events, which note where rules are made.

ghost use Rattle.std.specs.Prelude.{◌≡◌, ◌<◌, ◌≤◌, ◌+◌, ◌^◌, ◌++◌, ℕ, List, [], ◌∷◌, Some, IfOk, OnOk, length, option_to_list};
ghost use Rattle.std.specs.FinMap.{get};
ghost use Rattle.tw_types.specs.declared.event.Event.{Event as AnEvent};
ghost use Rattle.tw_code.specs.machine.Bounds.{AreBelow, opening_bound, size_of};
ghost use Rattle.tw_code.specs.machine.Machine.{step};
ghost use Rattle.tw_code.specs.machine.State.{State};
ghost use Rattle.tw_instr.specs.Attempts.{Changes, IsStopped};
ghost use Rattle.tw_types.specs.Outcome.{Outcome};
ghost use Rattle.tw_source.specs.Reply.{Reply as AReply, reply};
ghost use Rattle.tw_replay_output.specs.Replay.{ByOutcome, after_event};
ghost use Rattle.tw_replay_output.specs.Circle.{Start};
ghost use Rattle.tw_replay_output.specs.Counted.{AreShort};
ghost use Rattle.tw_replay_output.specs.Stuck.{IsOpened, IsPlayed, IsReplayOf, rule_by, rule_done, rule_in};

use crate::disabled::{Unplayed, why_stopped};
use crate::replay::stopped_reply;
use std::alloc::{AllocError, Global};
use tw_code::Instr;
use tw_machine::{Frame, Plain, Stopped};
use tw_types::{Actor, Event};

/// The place at which a rule was made, and the procedure that it runs.
#[derive(Clone, Copy)]
pub struct Made {
    pub procedure: usize,
    pub place: usize,
    pub runs: usize,
}

/// Returns the RULE that an instruction of the task is, if it is one.
fn rule_by(frame: &Frame, instr: &Instr) -> Option<Made>
    ensures { result ≡ rule_by frame.now (Some instr.now) }
{
    match instr {
        Instr::Rule(action) => Some(Made {
            procedure: usize::from(frame.procedure()),
            place: frame.place(),
            runs: usize::from(action.procedure),
        }),
        Instr::Local(_) | Instr::Data(_) | Instr::Put(_) | Instr::Ret => None,
    }
}

/// Returns the RULE that an actor's task executes next, if it is one.
fn rule_in(plain: &Plain, actor: Actor) -> Option<Made>
    ensures { result ≡ rule_in plain.now.program (get plain.now.state.frames actor) }
{
    let frame = plain.state().frame(actor)?;
    let procedure = plain
        .program()
        .procedures()
        .get(usize::from(frame.procedure()))?;
    let instr = procedure.code.as_slice().get(frame.place())?;
    rule_by(frame, instr)
}

/// Returns the RULE that an event executes in the machine's state, if it does.
fn rule_done(plain: &Plain, event: &Event) -> Option<Made>
    ensures { result ≡ rule_done plain.now.program event.now plain.now.state }
{
    match *event {
        Event::Call(actor) => rule_in(plain, actor),
        Event::Take(_) | Event::Local(_, _) | Event::End(_) => None,
        Event::Ask(_, _, _) | Event::Deliver(_, _, _, _) | Event::Release(_, _) => None,
    }
}

/// Adds where a rule was made, if an event made one.
fn keep(made: &mut Vec<Made>, rule: Option<Made>) -> Result<(), AllocError>
    ensures { OnOk result (made.new.items ≡ made.old.items ++ option_to_list rule) }
{
    match rule {
        Some(rule) => {
            made.push(rule)?;
            Ok(())
        }
        None => Ok(()),
    }
}

/// A machine that executes events, and where these made its rules, by the numbers of the rules from 1 on.
#[derive(Drop)]
pub struct Replaying {
    pub plain: Plain,
    pub made: Vec<Made>,
}

impl Replaying {
    /// Begins with a machine before its first event.
    pub fn new(alloc: Global, first: Plain) -> Replaying
        ensures plain { result.plain ≡ first }
        ensures begun { (start : Start) → IsOpened start first → IsReplayOf start [] result }
    {
        Replaying {
            plain: first,
            made: Vec::new(alloc),
        }
    }

    /// Executes an event, like `Plain::step`.
    pub fn step(&mut self, alloc: Global, event: Event) -> Result<(), Stopped>
        requires small { AreBelow (2 ^ 63) self.old.plain.state }
        requires size { size_of event < 2 ^ 63 }
        ensures steps { Changes (step self.old.plain.program self.old.plain.layout event self.old.plain.state) self.old.plain.state result self.new.plain.state }
        ensures program { self.new.plain.program ≡ self.old.plain.program }
        ensures version { self.new.plain.version ≡ self.old.plain.version }
        ensures layout { self.new.plain.layout ≡ self.old.plain.layout }
        ensures below { (bound : ℕ) → AreBelow bound self.old.plain.state → AreBelow (bound + size_of event) self.new.plain.state }
        ensures noted { OnOk result ((start : Start) (events : List AnEvent) → IsReplayOf start events self.old → IsReplayOf start (events ++ event ∷ []) self.new) }
    {
        let rule = rule_done(&self.plain, &event);
        match keep(&mut self.made, rule) {
            Ok(()) => self.plain.step(alloc, event),
            Err(_) => Err(Stopped::NoMemory),
        }
    }
}

/// Returns the reply that an event failed in the machine's state, and why it did.
pub fn unplayed(
    alloc: Global,
    plain: &Plain,
    event: Event,
    stopped: Stopped,
    number: usize,
) -> Result<Unplayed, AllocError>
    ensures { IfOk result (λ u. (o : Outcome State) (next : State → AReply) → IsStopped o stopped → ByOutcome o (λ s. ⊥) (reply u.reply.text.items u.reply.close ≡ after_event number o next)) }
{
    let why = why_stopped(alloc, plain, event, stopped)?;
    let reply = stopped_reply(alloc, stopped, number)?;
    Ok(Unplayed { reply, why })
}

/// Executes the events. If one isn't enabled or traps, returns the reply to the first such event.
pub fn play(
    alloc: Global,
    first: Plain,
    events: &[Event],
) -> Result<Result<Replaying, Unplayed>, AllocError>
    requires below { AreBelow opening_bound first.state }
    requires sizes { AreShort events.now }
    requires few { length events.now ≤ 16777217 }
    ensures { IfOk result (IsPlayed first events.now) }
{
    let mut replaying = Replaying::new(alloc, first);
    for (index, event) in events.iter().enumerate() {
        match replaying.step(alloc, *event) {
            Ok(()) => {}
            Err(stopped) => {
                let failed = unplayed(alloc, &replaying.plain, *event, stopped, index + 1)?;
                return Ok(Err(failed));
            }
        }
    }
    Ok(Ok(replaying))
}
