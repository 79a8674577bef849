//! Scheduling steps of actors without a task.

ghost use Rattle.std.specs.Prelude.{◌≡◌, ◌<◌, MatchOption, length, true};
ghost use Rattle.tw_types.specs.Actor.{is_in};
ghost use Rattle.tw_types.specs.declared.actor.Actor.TheVariants.{Engine, Server};
ghost use Rattle.tw_pool.specs.Kept.{HasNoAsk, IsFree, MayTakeNow, HasNoRelease};
ghost use Rattle.tw_pool.specs.Turns.{TurnsFree, IsTurnBy};

use crate::answer::Turn;
use crate::pool::Pool;
use std::alloc::Global;
use tw_types::{Actor, Event};

impl<'a> Pool<'a> {
    /// Lets a server of the pool deliver its oldest notice in a scheduling step, if it has one.
    pub(crate) fn deliver(&mut self, server: u8) -> Turn<'a>
        requires server { server < self.old.layout.servers }
        requires room { length self.old.history < self.old.limit }
        requires free { IsFree self.old (Server server) }
        ensures { IsTurnBy (λ s. TurnsFree self.old s (Server server)) self.old result self.new }
    {
        let Some(notice) = self.parts.deliver(server) else {
            return Turn::Idle;
        };
        let event = Event::Deliver(server, notice.datum, notice.rule, notice.parameter);
        self.history.push(event);
        Turn::Went
    }

    /// Lets an engine of the pool ask for its next parameter in a scheduling step. Returns `None` if there is none.
    pub(crate) fn ask(&mut self, engine: u8) -> Option<Turn<'a>>
        requires engine { engine < self.old.layout.engines }
        requires room { length self.old.history < self.old.limit }
        requires free { IsFree self.old (Engine engine) }
        ensures { MatchOption result ((self.new ≡ self.old) × HasNoAsk self.old engine) (λ answer. IsTurnBy (λ s. TurnsFree self.old s (Engine engine)) self.old answer self.new) }
    {
        let Ok(asked) = self.parts.ask(engine) else {
            return Some(Turn::NoMemory(None));
        };
        let Some(next) = asked else {
            return None;
        };
        let (rule, parameter) = next;
        self.history.push(Event::Ask(engine, rule, parameter));
        Some(Turn::Went)
    }

    /// Lets an engine of the pool without an ask release its next rule in a scheduling step. Returns `None` if none can be
    /// released.
    pub(crate) fn release(&mut self, engine: u8) -> Option<Turn<'a>>
        requires engine { engine < self.old.layout.engines }
        requires room { length self.old.history < self.old.limit }
        requires free { IsFree self.old (Engine engine) }
        requires asked { HasNoAsk self.old engine }
        ensures { MatchOption result ((self.new ≡ self.old) × HasNoRelease self.old engine) (λ answer. IsTurnBy (λ s. TurnsFree self.old s (Engine engine)) self.old answer self.new) }
    {
        let Ok(released) = self.parts.release(self.verified, engine) else {
            return Some(Turn::NoMemory(None));
        };
        let Some(rule) = released else {
            return None;
        };
        self.history.push(Event::Release(engine, rule));
        Some(Turn::Went)
    }

    /// Lets an engine without work on its rules, or a worker, take its best task in a scheduling step, if there is one.
    pub(crate) fn take(&mut self, alloc: Global, actor: Actor) -> Turn<'a>
        requires actor { is_in self.old.layout actor ≡ true }
        requires room { length self.old.history < self.old.limit }
        requires free { IsFree self.old actor }
        requires first { MayTakeNow self.old actor }
        ensures { IsTurnBy (λ s. TurnsFree self.old s actor) self.old result self.new }
    {
        let event_no = self.history.count(actor) + 1;
        let Ok(taken) = self.parts.take(self.verified, alloc, actor, event_no) else {
            return Turn::NoMemory(None);
        };
        let Some(job) = taken else {
            return Turn::Idle;
        };
        self.history.push(Event::Take(actor));
        Turn::Run(job)
    }

    /// Makes one scheduling step of an actor without a task, without a `Done`.
    pub(crate) fn schedule(&mut self, alloc: Global, actor: Actor) -> Turn<'a>
        requires actor { is_in self.old.layout actor ≡ true }
        requires room { length self.old.history < self.old.limit }
        requires free { IsFree self.old actor }
        ensures { IsTurnBy (λ s. TurnsFree self.old s actor) self.old result self.new }
    {
        match actor {
            Actor::Engine(engine) => {
                if let Some(answer) = self.ask(engine) {
                    return answer;
                }
                if let Some(answer) = self.release(engine) {
                    return answer;
                }
                self.take(alloc, actor)
            }
            Actor::Server(server) => self.deliver(server),
            Actor::Worker(_) => self.take(alloc, actor),
        }
    }
}
