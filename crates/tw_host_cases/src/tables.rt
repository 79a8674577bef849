//! Pools and hosts that one thread runs, with one trait for both.

ghost use Rattle.std.specs.Prelude.{◌≡◌, ◌<◌, IfSome, length, vec_len};
ghost use Rattle.tw_host.specs.Seats.{actor_count};
ghost use Rattle.tw_host.specs.Sees.{IsAnswerOf, IsDoneOf};

use std::alloc::Global;
use std::marker::PhantomData;
use std::sync::Wait;
use tw_frame::Done;
use tw_host::{Closed, Host, Named, Seat};
use tw_pool::{Closing, Final, History, Pool, Turn};
use tw_types::{Actor, Event};

/// The result of a job of the program of a run.
#[derive(Drop)]
pub struct Kept<'a, N: Named> {
    done: Done<'a>,
    run: PhantomData<N>,
    ghost of: { done.before.program ≡ N.run.program },
}

/// The result of a scheduling step.
#[derive(Clone, Copy, PartialEq, Eq)]
pub enum Said {
    Quiet,
    Stuck,
    Stopped,
    Limit,
    Foreign,
    Owed,
    NoMemory,
    Run,
    Ended,
    Went,
    Idle,
}

impl Said {
    /// Returns the words that are printed for the result of a step.
    pub fn words(self) -> &'static str {
        match self {
            Said::Quiet => "quiet",
            Said::Stuck => "stuck",
            Said::Stopped => "stopped",
            Said::Limit => "limit",
            Said::Foreign => "foreign",
            Said::Owed => "owed",
            Said::NoMemory => "no memory",
            Said::Run => "run",
            Said::Ended => "ended",
            Said::Went => "went",
            Said::Idle => "idle",
        }
    }

    /// Returns whether the result of a step is that the run is over.
    pub fn is_over(self) -> bool {
        matches!(
            self,
            Said::Quiet | Said::Stuck | Said::Stopped | Said::Limit
        )
    }

    /// Returns whether the actor has more to do after this result of a step.
    pub fn goes_on(self) -> bool {
        matches!(self, Said::Run | Said::Ended | Said::Went)
    }
}

/// The result of a step, with the number of its task, or of unmet rules.
#[derive(Clone, Copy)]
pub struct Answer {
    pub said: Said,
    pub number: u64,
    /// Whether an allocation failed in the job.
    pub is_short: bool,
}

/// Returns the result of a step without a job, with this number.
fn bare(said: Said, number: u64) -> Answer {
    Answer {
        said,
        number,
        is_short: false,
    }
}

/// Returns the result of a step with a job's result, which is put into `kept`.
fn with_done<'a, N: Named>(said: Said, done: Done<'a>, kept: &mut Option<Kept<'a, N>>) -> Answer
    requires { done.before.program ≡ N.run.program }
{
    let number = done.before().task().number();
    let is_short = done.short();
    *kept = Some(Kept {
        done,
        run: PhantomData,
    });
    Answer {
        said,
        number,
        is_short,
    }
}

/// Returns why a run is over as the result of a step.
pub fn over(closing: Closing) -> (Said, u64) {
    match closing {
        Closing::Quiet => (Said::Quiet, 0),
        Closing::Stuck(rules) => (Said::Stuck, rules),
        Closing::Stopped => (Said::Stopped, 0),
        Closing::Limit => (Said::Limit, 0),
    }
}

/// Returns the result of a step, and runs its job. Puts the job's result, or a result that is returned, into `kept`.
fn answer_of<'a, N: Named>(alloc: Global, turn: Turn<'a>, kept: &mut Option<Kept<'a, N>>) -> Answer
    requires { IsAnswerOf N.run.program turn }
{
    match turn {
        Turn::Over(closing) => {
            let (said, number) = over(closing);
            bare(said, number)
        }
        Turn::Foreign(done) => with_done(Said::Foreign, done, kept),
        Turn::Owed => bare(Said::Owed, 0),
        Turn::NoMemory(None) => bare(Said::NoMemory, 0),
        Turn::NoMemory(Some(done)) => with_done(Said::NoMemory, done, kept),
        Turn::Run(job) => with_done(Said::Run, job.run(alloc), kept),
        Turn::Ended => bare(Said::Ended, 0),
        Turn::Went => bare(Said::Went, 0),
        Turn::Idle => bare(Said::Idle, 0),
    }
}

/// Returns the `Done` that a case has kept, without the name of its run.
fn done_of<'a, N: Named>(kept: Option<Kept<'a, N>>) -> Option<Done<'a>>
    ensures { IsDoneOf N.run.program result }
{
    match kept {
        Some(Kept { done, run: _ }) => Some(done),
        None => None,
    }
}

/// A pool or a host, run by one thread. A step submits the result in `kept`, and puts its own there.
pub trait Table<K> {
    /// Makes one step of an actor, and runs its job. Returns None if it isn't an actor of the run, or its seat got a wrong event.
    fn turn<R: Wait>(
        &mut self,
        rt: &R,
        alloc: Global,
        actor: Actor,
        kept: &mut Option<K>,
    ) -> Option<Answer>;

    /// Stops the run of a pool or a host in a case.
    fn stop<R: Wait>(&mut self, rt: &R);

    /// Returns the event of this index among those that are reported to an actor.
    fn reported(&self, actor: Actor, index: usize) -> Option<Event>;

    /// Returns how many events a pool or a host reports to an actor in a case.
    fn count(&self, actor: Actor) -> usize;
}

/// A pool. All events are reported to each actor.
pub struct Pooled<'a, N: Named> {
    pool: Pool<'a>,
    run: PhantomData<N>,
    ghost of: { pool.program ≡ N.run.program },
}

impl<'a, N: Named> Pooled<'a, N> {
    /// Makes a table of a pool of the run.
    pub fn new(pool: Pool<'a>) -> Pooled<'a, N>
        requires { pool.program ≡ N.run.program }
    {
        Pooled {
            pool,
            run: PhantomData,
        }
    }

    /// Closes the table's pool, and returns what it left and its events.
    pub fn shut(self) -> (Final, History) {
        let Pooled { pool, run: _ } = self;
        pool.shut()
    }
}

impl<'a, N: Named> Table<Kept<'a, N>> for Pooled<'a, N> {
    /// Makes one step of an actor on the pool of a case, and runs its job.
    fn turn<R: Wait>(
        &mut self,
        _rt: &R,
        alloc: Global,
        actor: Actor,
        kept: &mut Option<Kept<'a, N>>,
    ) -> Option<Answer> {
        if !self.pool.layout().has(actor) {
            return None;
        }
        let done = done_of(kept.take());
        let turn = self.pool.turn(alloc, actor, done);
        Some(answer_of(alloc, turn, kept))
    }

    /// Stops the run of the pool of a case.
    fn stop<R: Wait>(&mut self, _rt: &R) {
        self.pool.stop();
    }

    /// Returns the event of this index in the pool of a case, whichever actor's it is.
    fn reported(&self, _actor: Actor, index: usize) -> Option<Event> {
        let history = self.pool.history();
        if index < history.len() {
            Some(history.event(index))
        } else {
            None
        }
    }

    /// Returns the number of all events of the pool of a case.
    fn count(&self, _actor: Actor) -> usize {
        self.pool.history().len()
    }
}

/// The order in which seats are returned.
#[derive(Clone, Copy, PartialEq, Eq)]
pub enum Order {
    Kept,
    Reversed,
    Shuffled,
}

/// A host with its seats.
pub struct Seated<'a, M: Named, N: Named> {
    host: Host<'a, M>,
    seats: Vec<Seat<M>>,
    run: PhantomData<N>,
    ghost of: { M.run.program ≡ N.run.program },
    ghost whole: { vec_len seats ≡ actor_count M.run.layout },
}

/// Returns the index of the seat of an actor in a case, if it has one.
fn place_of<M: Named>(seats: &[Seat<M>], actor: Actor) -> Option<usize>
    ensures { IfSome result (λ place. place < length seats.now) }
{
    for place in 0..seats.len() {
        if seats[place].actor() == actor {
            return Some(place);
        }
    }
    None
}

impl<'a, M: Named, N: Named> Seated<'a, M, N> {
    /// Makes a table of a host of the run, with all its seats.
    pub fn new(host: Host<'a, M>, seats: Vec<Seat<M>>) -> Seated<'a, M, N>
        requires of { M.run.program ≡ N.run.program }
        requires whole { vec_len seats ≡ actor_count M.run.layout }
    {
        Seated {
            host,
            seats,
            run: PhantomData,
        }
    }

    /// Changes the order of the seats of the table's host.
    pub fn reorder(&mut self, order: Order) {
        if order != Order::Kept {
            self.seats.reverse();
        }
        if order == Order::Shuffled && self.seats.len() > 2 {
            self.seats.swap(0, 2);
        }
    }

    /// Returns how many wakes the table's host lost.
    pub fn missed_wakes<R: Wait>(&self, rt: &R) -> u64 {
        self.host.missed_wakes(rt)
    }

    /// Closes the table's host with its seats.
    pub fn close(self) -> Closed {
        let Seated {
            host,
            seats,
            run: _,
        } = self;
        host.close(seats)
    }
}

impl<'a, M: Named, N: Named> Table<Kept<'a, N>> for Seated<'a, M, N> {
    /// Makes one step of an actor's seat on the host of a case, and runs its job.
    fn turn<R: Wait>(
        &mut self,
        rt: &R,
        alloc: Global,
        actor: Actor,
        kept: &mut Option<Kept<'a, N>>,
    ) -> Option<Answer> {
        let place = place_of(self.seats.as_slice(), actor)?;
        let done = done_of(kept.take());
        match self.host.turn(rt, alloc, &mut self.seats[place], done) {
            Ok(turn) => Some(answer_of(alloc, turn, kept)),
            Err(_) => None,
        }
    }

    /// Stops the run of the host of a case.
    fn stop<R: Wait>(&mut self, rt: &R) {
        self.host.stop(rt);
    }

    /// Returns the event of this index in the list of an actor's seat.
    fn reported(&self, actor: Actor, index: usize) -> Option<Event> {
        let place = place_of(self.seats.as_slice(), actor)?;
        let events = self.seats[place].events();
        if index < events.len() {
            Some(events.event(index))
        } else {
            None
        }
    }

    /// Returns the number of events in the list of an actor's seat.
    fn count(&self, actor: Actor) -> usize {
        match place_of(self.seats.as_slice(), actor) {
            Some(place) => self.seats[place].events().len(),
            None => 0,
        }
    }
}
