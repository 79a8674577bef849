//! Which actors sleep, and which of them have to be woken.

ghost use Rattle.std.specs.Prelude.{◌≡◌, ◌≤◌, ◌<◌, ◌⊎◌, ◌||◌, ℕ, false, true};
ghost use Rattle.tw_types.specs.declared.actor.Kind.TheVariants.{Control, Leaf};
ghost use Rattle.tw_types.specs.Actor.{is_in, actor_count, index_of};
ghost use Rattle.tw_types.specs.Layout.{IsLayout};
ghost use Rattle.tw_pool.specs.Work.{AreTargeted, LacksWork};
ghost use Rattle.tw_host.specs.Sleeping.{AreWoken, HasCleared, Is, IsCleared, IsConsidered, IsKnown, IsMarked, IsOver, Isnt, TakesNone, Wakes, WakesAfter, WakesKind, WakesOne, WakesOwn, WakesServers, end_of, first_of, has_job, is_idle, is_over_turn};

use crate::bits::{bit, bits, has, nobody_looks, with, without, without_all};
use tw_pool::{Pool, Turn};
use tw_types::{Actor, Kind, Layout};

/// Returns whether an actor has a job to run after its scheduling step.
fn has_job(answer: &Turn<'_>) -> bool
    ensures { result ≡ has_job answer.now }
{
    matches!(answer, Turn::Run(_))
}

/// Returns whether nothing was due for an actor in its scheduling step.
fn is_idle(answer: &Turn<'_>) -> bool
    ensures { result ≡ is_idle answer.now }
{
    matches!(answer, Turn::Idle)
}

/// Returns whether a scheduling step has found that the run is over.
fn is_over_turn(answer: &Turn<'_>) -> bool
    ensures { result ≡ is_over_turn answer.now }
{
    matches!(answer, Turn::Over(_))
}

/// Returns the bits of the actors that may do the same untargeted work as this actor.
fn peers(layout: Layout, actor: Actor) -> u64
    requires layout { IsLayout layout }
    requires actor { is_in layout actor ≡ true }
{
    let engines = usize::from(layout.engines());
    let servers = engines + usize::from(layout.servers());
    match actor {
        Actor::Engine(_) => bits(0, engines),
        Actor::Server(_) => bit(layout.index_of(actor)),
        Actor::Worker(_) => bits(servers, layout.actor_count()),
    }
}

/// Records which actors sleep and which run a job, with one bit for each at its index in the layout. All others look for work:
/// they make a step before they sleep. It is changed under the same lock as the pool, whose invariant (`AreWoken`) says that no wake is
/// lost. No event depends on it.
#[derive(Clone, Copy)]
pub(crate) struct Sleepers {
    asleep: u64,
    out: u64,
    is_over: bool,
    /// The actor that makes a step slept and wasn't woken, and no other one looks for work that it may do. So its step must be idle.
    is_unasked: bool,
    /// How many actors had to be woken so far.
    wakes: u64,
    /// How often an actor returned by itself although it had to be woken.
    late: u64,
}

impl Sleepers {
    /// Makes the record of sleeping actors before a run: none sleeps or runs a job.
    pub(crate) fn new() -> Sleepers
        ensures { (result.asleep ≡ 0) × (result.is_over ≡ false) }
    {
        Sleepers {
            asleep: 0,
            out: 0,
            is_over: false,
            is_unasked: false,
            wakes: 0,
            late: 0,
        }
    }

    /// Adds the sleeper at an index to those that are due if it has work of its own, or else if a task without a target is left.
    fn consider(&self, pool: &Pool<'_>, index: usize, due: &mut u64, left: &mut bool)
        requires index { index < actor_count pool.now.layout }
        requires layout { IsLayout pool.now.layout }
        ensures { IsConsidered pool.now self.now.asleep index due.old due.new left.old left.new }
    {
        if !has(self.asleep, index) {
            return;
        }
        if pool.has_own_work(pool.layout().actor_at(index)) {
            *due = with(*due, index);
        } else if *left {
            *due = with(*due, index);
            *left = false;
        }
    }

    /// Returns the sleepers at the indices from `from` on before `to` that have work of their own. If a task without a target is left,
    /// adds one more.
    fn due_among(&self, pool: &Pool<'_>, from: usize, to: usize, task: bool) -> u64
        requires to { to ≤ actor_count pool.now.layout }
        requires layout { IsLayout pool.now.layout }
        ensures own { WakesOwn pool.now self.now.asleep result from to }
        ensures one { task ≡ true → (i : ℕ) → from ≤ i → i < to → Is self.now.asleep i → WakesOne self.now.asleep result from to }
    {
        let mut due = 0;
        let mut left = task;
        for index in from..to {
            self.consider(pool, index, &mut due, &mut left);
        }
        due
    }

    /// Returns whether a task without a target waits for these actors of its kind, and none of them looks for work.
    fn lacks(&self, pool: &Pool<'_>, kind: Kind, of_kind: u64) -> bool
        ensures { result ≡ false → AreTargeted pool.now kind ⊎ ((i : ℕ) × (i < 64) × Is of_kind i × Isnt self.now.asleep i × Isnt self.now.out i) }
    {
        nobody_looks(of_kind, self.asleep, self.out) && pool.has_untargeted(kind)
    }

    /// Returns the sleepers of a kind, which are at these indices, that have to be woken.
    fn due_of(&self, pool: &Pool<'_>, kind: Kind, from: usize, to: usize) -> u64
        requires from { from ≡ first_of kind pool.now.layout }
        requires to { to ≡ end_of kind pool.now.layout }
        requires layout { IsLayout pool.now.layout }
        ensures { WakesKind pool.now self.now.asleep self.now.out result kind }
    {
        let of_kind = bits(from, to);
        if self.asleep & of_kind == 0 {
            return 0;
        }
        let task = self.lacks(pool, kind, of_kind);
        self.due_among(pool, from, to, task)
    }

    /// Returns the sleeping engines that have to be woken: for their own work, or a task without a target.
    fn due_engines(&self, pool: &Pool<'_>) -> u64
        requires { IsLayout pool.now.layout }
        ensures { WakesKind pool.now self.now.asleep self.now.out result Control }
    {
        let engines = usize::from(pool.layout().engines());
        self.due_of(pool, Kind::Control, 0, engines)
    }

    /// Returns the sleeping servers that have to be woken: those that have notices to deliver.
    fn due_servers(&self, pool: &Pool<'_>) -> u64
        requires { IsLayout pool.now.layout }
        ensures { WakesServers pool.now self.now.asleep result }
    {
        let layout = pool.layout();
        let engines = usize::from(layout.engines());
        let servers = engines + usize::from(layout.servers());
        self.due_among(pool, engines, servers, false)
    }

    /// Returns the sleeping workers that have to be woken: for their own work, or a task without a target.
    fn due_workers(&self, pool: &Pool<'_>) -> u64
        requires { IsLayout pool.now.layout }
        ensures { WakesKind pool.now self.now.asleep self.now.out result Leaf }
    {
        let layout = pool.layout();
        let servers = usize::from(layout.engines()) + usize::from(layout.servers());
        self.due_of(pool, Kind::Leaf, servers, layout.actor_count())
    }

    /// Returns the sleepers for which events of an actor may have made work, or one that has to look for work instead of an actor that
    /// is out.
    fn due_by(&self, pool: &Pool<'_>, actor: Actor, is_out: bool) -> u64
        requires { IsLayout pool.now.layout }
        ensures { Wakes pool.now self.now.asleep self.now.out result actor is_out }
    {
        match actor {
            Actor::Engine(_) => {
                self.due_engines(pool) | self.due_servers(pool) | self.due_workers(pool)
            }
            Actor::Server(_) => self.due_engines(pool),
            Actor::Worker(_) => {
                if is_out {
                    self.due_servers(pool) | self.due_workers(pool)
                } else {
                    self.due_servers(pool)
                }
            }
        }
    }

    /// Returns the sleepers that have to be woken after steps of an actor with this number of events.
    fn due_after(&self, pool: &Pool<'_>, actor: Actor, events: usize, is_out: bool) -> u64
        requires { IsLayout pool.now.layout }
        ensures { WakesAfter pool.now self.now.asleep self.now.out self.now.is_over result actor events is_out }
    {
        if self.asleep == 0 {
            return 0;
        }
        if self.is_over {
            return self.asleep;
        }
        if events == 0 && !is_out {
            return 0;
        }
        self.due_by(pool, actor, is_out)
    }

    /// Marks sleeping actors as awake, and counts their wakes.
    fn wake(&mut self, due: u64) -> u64
        ensures due { result ≡ due }
        ensures asleep { IsCleared due self.old.asleep self.new.asleep }
        ensures others { (self.new.out ≡ self.old.out) × (self.new.is_over ≡ self.old.is_over) }
    {
        self.asleep = without_all(self.asleep, due);
        self.wakes = self.wakes.wrapping_add(u64::from(due.count_ones()));
        due
    }

    /// Counts a wake of a sleeping actor that came too late, if there was one.
    fn count_late(&mut self, is_late: bool)
        ensures { (self.new.asleep ≡ self.old.asleep) × (self.new.out ≡ self.old.out) × (self.new.is_over ≡ self.old.is_over) }
    {
        if is_late {
            self.late = self.late.wrapping_add(1);
        }
    }

    /// Marks an actor as awake before its step. Once it is published that the run is over, all should have been woken.
    pub(crate) fn check_in(&mut self, layout: Layout, actor: Actor, is_over: bool)
        requires layout { IsLayout layout }
        requires actor { is_in layout actor ≡ true }
        ensures asleep { IsMarked (index_of layout actor) false self.old.asleep self.new.asleep }
        ensures none { self.old.asleep ≡ 0 → self.new.asleep ≡ 0 }
        ensures others { (self.new.out ≡ self.old.out) × (self.new.is_over ≡ self.old.is_over) }
    {
        let index = layout.index_of(actor);
        let is_unwoken = has(self.asleep, index);
        self.is_unasked = is_unwoken && nobody_looks(peers(layout, actor), self.asleep, self.out);
        self.count_late(is_unwoken && is_over);
        self.asleep = without(self.asleep, index);
    }

    /// Records among the sleepers whether an actor runs a job.
    fn set_out(&mut self, index: usize, is_out: bool)
        requires { index < 64 }
        ensures out { IsMarked index is_out self.old.out self.new.out }
        ensures others { (self.new.asleep ≡ self.old.asleep) × (self.new.is_over ≡ self.old.is_over) }
    {
        self.out = if is_out {
            with(self.out, index)
        } else {
            without(self.out, index)
        };
    }

    /// Records among the sleepers that the run is over, if the step's result says so.
    fn note_end(&mut self, answer: &Turn<'_>)
        ensures over { self.new.is_over ≡ (self.old.is_over || is_over_turn answer.now) }
        ensures others { (self.new.asleep ≡ self.old.asleep) × (self.new.out ≡ self.old.out) }
    {
        if is_over_turn(answer) {
            self.is_over = true;
        }
    }

    /// Records an actor as asleep if its step found nothing to do.
    fn sleep_if(&mut self, index: usize, is_idle: bool)
        requires { index < 64 }
        ensures asleep { is_idle ≡ true → IsMarked index true self.old.asleep self.new.asleep }
        ensures awake { is_idle ≡ false → self.new.asleep ≡ self.old.asleep }
        ensures others { (self.new.out ≡ self.old.out) × (self.new.is_over ≡ self.old.is_over) }
    {
        if is_idle {
            self.asleep = with(self.asleep, index);
        }
    }

    /// Returns the actors to be woken after steps of an actor, with this number of events and this result. An idle actor sleeps from now
    /// on.
    pub(crate) fn to_wake(
        &mut self,
        pool: &Pool<'_>,
        actor: Actor,
        events: usize,
        answer: &Turn<'_>,
    ) -> u64
        requires layout { IsLayout pool.now.layout }
        requires actor { is_in pool.now.layout actor ≡ true }
        requires awake { Isnt self.old.asleep (index_of pool.now.layout actor) }
        requires known { IsKnown pool.now self.old.asleep self.old.out actor events }
        requires idle { is_idle answer.now ≡ true → (self.old.is_over ≡ false) × LacksWork pool.now actor × TakesNone pool.now actor }
        requires over { is_over_turn answer.now ≡ true → IsOver pool.now }
        requires ended { self.old.is_over ≡ true → IsOver pool.now }
        requires stops { pool.now.stopped ≡ true → self.old.is_over ≡ true }
        ensures woken { AreWoken pool.now self.new.asleep self.new.out self.new.is_over }
        ensures due { HasCleared (index_of pool.now.layout actor) self.old.asleep self.new.asleep result }
    {
        let index = pool.layout().index_of(actor);
        let is_out = has_job(answer);
        self.set_out(index, is_out);
        self.note_end(answer);
        self.count_late(self.is_unasked && events != 0);
        let due = self.due_after(pool, actor, events, is_out);
        self.sleep_if(index, is_idle(answer));
        self.wake(due)
    }

    /// Marks all sleeping actors as awake once the run is over, and returns them.
    pub(crate) fn end(&mut self) -> u64
        ensures asleep { self.new.asleep ≡ 0 }
        ensures over { self.new.is_over ≡ true }
        ensures due { result ≡ self.old.asleep }
    {
        self.is_over = true;
        let asleep = self.asleep;
        self.wake(asleep)
    }

    /// Returns how many wakes of sleeping actors were late, or weren't made although they were due.
    pub(crate) fn missed_wakes(&self, made: u64) -> u64 {
        self.late.wrapping_add(self.wakes.wrapping_sub(made))
    }
}
