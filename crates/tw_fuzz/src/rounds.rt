//! Runs of the pool in one thread.

ghost use Rattle.std.specs.Prelude.{◌≡◌, All, IfSome, true};
ghost use Rattle.tw_types.specs.Actor.{is_in};
ghost use Rattle.tw_host.specs.Sees.{IsDoneOf};

use crate::case::Case;
use crate::draw::draw;
use crate::replay::{Ended, end_of};
use std::alloc::Global;
use tw_frame::Done;
use tw_pool::{Pool, Turn};
use tw_types::{Actor, Layout};

/// The result of a scheduling step for its caller.
#[derive(Clone, Copy, PartialEq, Eq)]
enum Came {
    On,
    Over,
    /// A result that no such step has.
    Astray,
}

/// Returns the actor of a place in a fuzz test's rounds, if there is one.
fn actor_at(layout: Layout, place: u8) -> Option<Actor>
    ensures { IfSome result (λ actor. is_in layout actor ≡ true) }
{
    let actor = match place {
        0..=3 => Actor::Engine(place),
        4..=7 => Actor::Server(place.wrapping_sub(4)),
        _ => Actor::Worker(place.wrapping_sub(8)),
    };
    if layout.has(actor) { Some(actor) } else { None }
}

/// Makes one step of an actor in a fuzz test's rounds, with the `Done` that it kept. Runs a job that it is issued at once, and
/// keeps its `Done`.
fn turn_one<'a>(
    alloc: Global,
    pool: &mut Pool<'a>,
    actor: Actor,
    kept: &mut Option<Done<'a>>,
) -> Came
    requires actor { is_in pool.old.layout actor ≡ true }
    requires kept { IsDoneOf pool.old.program kept.old }
    ensures program { pool.new.program ≡ pool.old.program }
    ensures kept { IsDoneOf pool.old.program kept.new }
{
    match pool.turn(alloc, actor, kept.take()) {
        Turn::Run(job) => {
            *kept = Some(job.run(alloc));
            Came::On
        }
        Turn::Ended | Turn::Went | Turn::Idle => Came::On,
        Turn::Over(_) => Came::Over,
        Turn::Foreign(_) | Turn::Owed | Turn::NoMemory(_) => Came::Astray,
    }
}

/// Makes one step of a fuzz test for each actor, from the first on. Some are left out at random.
fn turn_round<'a>(
    alloc: Global,
    pool: &mut Pool<'a>,
    seed: &mut u64,
    kept: &mut [Option<Done<'a>>],
) -> Came
    requires { All (λ d. IsDoneOf pool.old.program d) kept.old }
    ensures program { pool.new.program ≡ pool.old.program }
    ensures kept { All (λ d. IsDoneOf pool.old.program d) kept.new }
{
    for place in 0..kept.len() {
        let number = u8::try_from(place).unwrap_or(255);
        let Some(actor) = actor_at(pool.layout(), number) else {
            continue;
        };
        if draw(seed, 4) == 0 {
            continue;
        }
        let came = turn_one(alloc, pool, actor, &mut kept[place]);
        if came != Came::On {
            return came;
        }
    }
    Came::On
}

/// Makes steps of a fuzz test's rounds until the run is over. Returns false if a result isn't one that may come, or if the run
/// doesn't end.
fn turn_all<'a>(alloc: Global, pool: &mut Pool<'a>, seed: &mut u64) -> bool {
    let mut kept: Vec<Option<Done<'a>>> = Vec::new(alloc);
    for _place in 0..24_u8 {
        if kept.push(None).is_err() {
            return false;
        }
    }
    for _round in 0..100_000_u32 {
        match turn_round(alloc, pool, seed, kept.as_mut_slice()) {
            Came::On => {}
            Came::Over => return true,
            Came::Astray => return false,
        }
    }
    false
}

/// Makes a run in one thread with at most `limit` events. Returns `None` if it can't be opened, or doesn't end.
pub fn run_in_rounds(alloc: Global, case: &Case, limit: usize) -> Option<Ended> {
    let opened = Pool::open(alloc, &case.verified, &case.inputs, case.layout, limit);
    let Ok(mut pool) = opened else {
        return None;
    };
    let mut seed = case.seed;
    let came = turn_all(alloc, &mut pool, &mut seed);
    let (left, history) = pool.shut();
    if came {
        end_of(alloc, &left, &history)
    } else {
        None
    }
}
