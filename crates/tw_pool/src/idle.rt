//! Which actors have nothing to do.

ghost use Rattle.std.specs.Prelude.{◌≡◌, ◌<◌, ◌≤◌, ◌+◌, true};
ghost use Rattle.tw_types.specs.Actor.{actor_count, is_in};
ghost use Rattle.tw_types.specs.declared.actor.Actor.TheVariants.{Engine, Server, Worker};
ghost use Rattle.tw_pool.specs.Work.{IsIdle, IsNextBusy, RunsOn};

use crate::pool::Pool;
use crate::turn::has_task;
use tw_types::Actor;

impl<'a> Pool<'a> {
    /// Returns whether an engine of the pool has nothing to do while the run isn't over.
    fn engine_rests(&self, engine: u8) -> bool
        requires engine { engine < self.now.layout.engines }
        requires runs_on { RunsOn self.now }
        ensures { result ≡ true → IsIdle self.now (Engine engine) }
    {
        if has_task(&self.parts, Actor::Engine(engine)) {
            return false;
        }
        if let Some(_) = self.parts.rules.next_ask(engine) {
            return false;
        }
        if let Some(_) = self.parts.rules.next_release(engine) {
            return false;
        }
        !self.parts.tasks.has_any(Actor::Engine(engine))
    }

    /// Returns whether a server of the pool has nothing to do while the run isn't over.
    fn server_rests(&self, server: u8) -> bool
        requires server { server < self.now.layout.servers }
        requires runs_on { RunsOn self.now }
        ensures { result ≡ true → IsIdle self.now (Server server) }
    {
        if has_task(&self.parts, Actor::Server(server)) {
            return false;
        }
        !self.parts.has_own_work(Actor::Server(server))
    }

    /// Returns whether a worker of the pool has nothing to do while the run isn't over.
    fn worker_rests(&self, worker: u8) -> bool
        requires worker { worker < self.now.layout.workers }
        requires runs_on { RunsOn self.now }
        ensures { result ≡ true → IsIdle self.now (Worker worker) }
    {
        if has_task(&self.parts, Actor::Worker(worker)) {
            return false;
        }
        !self.parts.tasks.has_any(Actor::Worker(worker))
    }

    /// Returns whether an actor of the pool has nothing to do while the run isn't over.
    fn rests(&self, actor: Actor) -> bool
        requires actor { is_in self.now.layout actor ≡ true }
        requires runs_on { RunsOn self.now }
        ensures { result ≡ true → IsIdle self.now actor }
    {
        match actor {
            Actor::Engine(engine) => self.engine_rests(engine),
            Actor::Server(server) => self.server_rests(server),
            Actor::Worker(worker) => self.worker_rests(worker),
        }
    }

    /// Returns the index of the first worker of the pool from this one on that may not rest.
    #[inline(always)]
    fn next_worker(&self, from: u8) -> Option<usize>
        requires runs_on { RunsOn self.now }
        ensures { IsNextBusy self.now (self.now.layout.engines + self.now.layout.servers + from) (actor_count self.now.layout) result }
    {
        let first = usize::from(self.layout.engines()) + usize::from(self.layout.servers());
        for worker in from..self.layout.workers() {
            if !self.worker_rests(worker) {
                return Some(first + usize::from(worker));
            }
        }
        None
    }

    /// Returns the index of the first server of the pool from this one on that may not rest, or else of such a worker.
    #[inline(always)]
    fn next_server(&self, from: u8) -> Option<usize>
        requires server { from ≤ self.now.layout.servers }
        requires runs_on { RunsOn self.now }
        ensures { IsNextBusy self.now (self.now.layout.engines + from) (actor_count self.now.layout) result }
    {
        let first = usize::from(self.layout.engines());
        for server in from..self.layout.servers() {
            if !self.server_rests(server) {
                return Some(first + usize::from(server));
            }
        }
        self.next_worker(0)
    }

    /// Returns the index of the first engine of the pool from this one on that may not rest, or else of such a server or worker.
    fn next_engine(&self, from: u8) -> Option<usize>
        requires engine { from ≤ self.now.layout.engines }
        requires runs_on { RunsOn self.now }
        ensures { IsNextBusy self.now from (actor_count self.now.layout) result }
    {
        for engine in from..self.layout.engines() {
            if !self.engine_rests(engine) {
                return Some(usize::from(engine));
            }
        }
        self.next_server(0)
    }

    /// Returns whether a scheduling step of the pool by this actor would be idle. Makes none.
    pub fn is_idle(&self, actor: Actor) -> bool
        requires actor { is_in self.now.layout actor ≡ true }
        ensures { result ≡ true → IsIdle self.now actor }
    {
        if let Some(_) = self.closing() {
            return false;
        }
        self.rests(actor)
    }

    /// Returns the index of the first actor from this one on whose scheduling step in the pool may not be idle. Makes none.
    #[inline(always)]
    pub fn next_busy(&self, from: usize) -> Option<usize>
        ensures { IsNextBusy self.now from (actor_count self.now.layout) result }
    {
        let count = self.layout.actor_count();
        if count <= from {
            return None;
        }
        let first = self.layout.actor_at(from);
        if has_task(&self.parts, first) {
            return Some(from);
        }
        if let Some(_) = self.closing() {
            return Some(from);
        }
        match first {
            Actor::Engine(engine) => self.next_engine(engine),
            Actor::Server(server) => self.next_server(server),
            Actor::Worker(worker) => self.next_worker(worker),
        }
    }
}
