//! Scheduling steps of actors that submit a job's result.

ghost use Rattle.std.specs.Prelude.{◌≡◌, ◌<◌, ◌≤◌, ◌++◌, ◌∷◌, ℕ, [], IfSome, Some, true, false, length, option_to_list, slice_get};
ghost use Rattle.tw_types.specs.Actor.{is_in};
ghost use Rattle.tw_types.specs.declared.actor.Actor.{Actor as AnActor};
ghost use Rattle.tw_types.specs.declared.event.Event.TheVariants.{Call as CallBy, End as EndBy, Local as LocalBy};
ghost use Rattle.tw_code.specs.declared.instr.Instr.TheVariants as instr_is;
ghost use Rattle.tw_code.specs.machine.Due.{event_of};
ghost use Rattle.tw_code.specs.machine.Machine.{is_ret};
ghost use Rattle.tw_pool.specs.declared.answer.Closing.TheVariants.{Limit};
ghost use Rattle.tw_pool.specs.declared.answer.Turn.TheVariants as answer;
ghost use Rattle.tw_pool.specs.Actors.{HasPlace, events_of};
ghost use Rattle.tw_pool.specs.Kept.{IsOwedBy};
ghost use Rattle.tw_pool.specs.Turns.{Answers, IsTurnBy, Issues, instr_after, is_last, steps_of, Makes, Turns, issued_to};
ghost use Rattle.tw_pool.specs.Words.{FitsWord};
ghost use Rattle.std.specs.Option.{option_and_then};
ghost use Rattle.tw_code.specs.declared.instr.Instr.{Instr as AnInstr};
ghost use Rattle.tw_code.specs.declared.procedure.Procedure.{Procedure};

use crate::answer::{Closing, Turn};
use crate::history::History;
use crate::pool::Pool;
use std::alloc::Global;
use tw_code::Instr;
use tw_frame::Done;
use tw_types::{Actor, Event};
use tw_verify::Verified;

/// Appends the event of a submitted job's local steps to the pool's events, if there is one.
fn record_event(history: &mut History, event: Option<Event>)
    requires local { IfSome event (λ e. (actor : AnActor) × (steps : ℕ) × (e ≡ LocalBy actor steps)) }
    requires fits { IfSome event FitsWord }
    requires room { length history.old.events < history.old.limit }
    ensures { history.new ≡ record history.old { events = history.old.events ++ option_to_list event } }
{
    match event {
        Some(Event::Local(actor, steps)) => history.push(Event::Local(actor, steps)),
        Some(_) => unreachable!(),
        None => {}
    }
}

/// Returns how many events the pool has of the actor after those of its submitted `Done` and a Call.
fn count_after(history: &History, actor: Actor, done: &Done<'_>) -> u64
    requires place { HasPlace actor }
    requires few { length history.now.events ≤ 1000000 }
    ensures { result ≡ length (events_of actor (history.now.events ++ (steps_of actor done.now ++ CallBy actor ∷ []))) }
{
    let count = history.count(actor);
    if done.steps() == 0 {
        count + 1
    } else {
        count + 2
    }
}

/// Returns whether the instruction after a submitted job is RET.
fn is_ret(instr: &Instr) -> bool
    ensures { result ≡ is_ret instr.now }
{
    match instr {
        Instr::Ret => true,
        Instr::Local(_) | Instr::Data(_) | Instr::Rule(_) | Instr::Put(_) => false,
    }
}

/// Returns the instruction at which a submitted job has stopped, in its procedure of the verified program.
fn instr_at(verified: &Verified, procedure: u8, place: usize) -> &Instr
    requires { (i : AnInstr) × (option_and_then (λ (p : Procedure). slice_get p.code place) (slice_get verified.now.program procedure) ≡ Some i) }
    ensures { option_and_then (λ (p : Procedure). slice_get p.code place) (slice_get verified.now.program procedure) ≡ Some result.now }
{
    let p = &verified.program().procedures()[usize::from(procedure)];
    &p.code.as_slice()[place]
}

impl<'a> Pool<'a> {
    /// Completes the actor's job in the pool's scheduling step, and issues the next one.
    pub(crate) fn continue_task(&mut self, actor: Actor, done: Done<'a>) -> Turn<'a>
        requires actor { is_in self.old.layout actor ≡ true }
        requires room { length self.old.history < self.old.limit }
        requires owed { IsOwedBy self.old actor done }
        ensures { IsTurnBy (λ s. Issues self.old actor (steps_of actor done.entry)) self.old result self.new }
    {
        let _steps = done.steps();
        let event = self.parts.event_of(actor, &done);
        record_event(&mut self.history, event);
        let event_no = self.history.count(actor);
        Turn::Run(self.parts.advance(actor, event_no, done))
    }

    /// Completes the actor's job, whose steps are the last event up to the limit. Drops the next job.
    fn stop_at_limit(&mut self, actor: Actor, done: Done<'a>) -> Turn<'a>
        requires actor { is_in self.old.layout actor ≡ true }
        requires room { length self.old.history < self.old.limit }
        requires owed { IsOwedBy self.old actor done }
        ensures { IsTurnBy (λ s. Answers (answer.Over Limit) (steps_of actor done.entry)) self.old result self.new }
    {
        let _run = self.continue_task(actor, done);
        Turn::Over(Closing::Limit)
    }

    /// Completes the actor's job in the pool's scheduling step, and ends its task.
    fn end(&mut self, alloc: Global, actor: Actor, done: Done<'a>) -> Turn<'a>
        requires actor { is_in self.old.layout actor ≡ true }
        requires room { length self.old.history < self.old.limit }
        requires owed { IsOwedBy self.old actor done }
        requires fits { is_last self.old done ≡ false }
        requires following_is { instr_after self.old.program.program done ≡ Some instr_is.Ret }
        ensures { IsTurnBy (λ s. Answers answer.Ended (steps_of actor done.entry ++ EndBy actor ∷ [])) self.old result self.new }
    {
        let _steps = done.steps();
        let event = self.parts.event_of(actor, &done);
        self.parts.end(alloc, actor, done);
        record_event(&mut self.history, event);
        self.history.push(Event::End(actor));
        Turn::Ended
    }

    /// Completes a job that isn't short, if all its events fit the limit, and executes the instruction after it.
    fn execute_next(&mut self, alloc: Global, actor: Actor, done: Done<'a>) -> Turn<'a>
        requires actor { is_in self.old.layout actor ≡ true }
        requires room { length self.old.history < self.old.limit }
        requires owed { IsOwedBy self.old actor done }
        requires program { done.before.program ≡ self.old.program }
        requires whole { done.short ≡ false }
        requires fits { is_last self.old done ≡ false }
        ensures { IsTurnBy (λ s. Makes self.old actor (Some done.entry) (steps_of actor done.entry) (event_of actor (instr_after self.old.program.program done.entry))) self.old result self.new }
    {
        let _steps = done.steps();
        let instr = instr_at(self.verified, done.before().procedure(), done.after_place());
        if is_ret(instr) {
            return self.end(alloc, actor, done);
        }
        let event = self.parts.event_of(actor, &done);
        let event_no = count_after(&self.history, actor, &done);
        let job = match self.parts.call(alloc, actor, event_no, instr, done) {
            Ok(job) => job,
            Err(done) => return Turn::NoMemory(Some(done)),
        };
        record_event(&mut self.history, event);
        self.history.push(Event::Call(actor));
        Turn::Run(job)
    }

    /// Returns whether a submitted job makes two events due, and only one fits the limit.
    fn is_last(&self, done: &Done<'a>) -> bool
        requires { length self.now.history < self.now.limit }
        ensures { result ≡ is_last self.now done.now }
    {
        if done.steps() == 0 {
            return false;
        }
        self.history.has_room_for_one()
    }

    /// Completes the job that is issued to the actor, of which the result is. Makes no comparison.
    pub(crate) fn complete(&mut self, alloc: Global, actor: Actor, done: Done<'a>) -> Turn<'a>
        requires actor { is_in self.old.layout actor ≡ true }
        requires room { length self.old.history < self.old.limit }
        requires owed { IsOwedBy self.old actor done }
        requires program { done.before.program ≡ self.old.program }
        ensures { IsTurnBy (λ s. Turns self.old s actor (issued_to self.old s actor) (Some done.entry)) self.old result self.new }
    {
        if done.short() {
            return self.continue_task(actor, done);
        }
        if self.is_last(&done) {
            return self.stop_at_limit(actor, done);
        }
        self.execute_next(alloc, actor, done)
    }

    /// Completes the job that is issued to the actor. Returns a result as foreign if no job is issued to the actor, or another one.
    pub(crate) fn submit(&mut self, alloc: Global, actor: Actor, done: Done<'a>) -> Turn<'a>
        requires actor { is_in self.old.layout actor ≡ true }
        requires room { length self.old.history < self.old.limit }
        requires program { done.before.program ≡ self.old.program }
        ensures { IsTurnBy (λ s. Turns self.old s actor (issued_to self.old s actor) (Some done.entry)) self.old result self.new }
    {
        let Some(frame) = self.parts.running_tasks.get(actor) else {
            return Turn::Foreign(done);
        };
        if !frame.is_current(done.before()) {
            return Turn::Foreign(done);
        }
        self.complete(alloc, actor, done)
    }
}
