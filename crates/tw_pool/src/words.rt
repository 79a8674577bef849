//! The encoding of an event in one word.

ghost use Rattle.std.specs.Prelude.{◌≡◌, ◌<◌, ◌+◌, ◌*◌, ◌%◌, ◌/◌, ◌^◌};
ghost use Rattle.tw_code.specs.machine.History.{actor_of};
ghost use Rattle.tw_pool.specs.Actors.{HasPlace, actor_of_place, place_of};
ghost use Rattle.tw_pool.specs.Words.{FitsWord, IsPlaced, unpack, word_of};

use tw_types::{Actor, DatumId, Event, RuleNo};

/// Returns the actor whose place among all possible ones is encoded in an event's word.
fn actor_of_place(place: u64) -> Actor
    requires { place < 32 }
    ensures { result ≡ actor_of_place place }
{
    if place < 4 {
        Actor::Engine(place as u8)
    } else if place < 8 {
        Actor::Server((place - 4) as u8)
    } else {
        Actor::Worker((place - 8) as u8)
    }
}

/// Returns the place of the actor in the word that encodes an event.
pub(crate) fn maker(word: u64) -> usize
    ensures { result ≡ word / 8 % 32 }
{
    (word / 8 % 32) as usize
}

/// Returns the actor of the event that a word encodes.
pub(crate) fn maker_of(word: u64) -> Actor
    requires { IsPlaced word }
    ensures { result ≡ actor_of (unpack word) }
{
    actor_of_place(word / 8 % 32)
}

/// Returns the word that encodes an event of this kind, for an actor and numbers.
fn word(kind: u64, actor: Actor, numbers: u64) -> u64
    requires actor { HasPlace actor }
    requires kind { kind < 8 }
    requires numbers { numbers < 2 ^ 56 }
    ensures { result ≡ kind + 8 * (place_of actor + 32 * numbers) }
{
    kind + 8 * (actor.place() as u64 + 32 * numbers)
}

/// Encodes an event in a word of 64 bits.
#[inline(always)]
pub(crate) fn pack(event: Event) -> u64
    requires { FitsWord event }
    ensures { result ≡ word_of event }
{
    match event {
        Event::Take(actor) => word(0, actor, 0),
        Event::Local(actor, steps) => word(1, actor, steps),
        Event::Call(actor) => word(2, actor, 0),
        Event::End(actor) => word(3, actor, 0),
        Event::Ask(engine, rule, parameter) => {
            let numbers = u64::from(parameter) + 8 * rule.number();
            word(4, Actor::Engine(engine), numbers)
        }
        Event::Deliver(server, datum, rule, parameter) => {
            let data = rule.number() + 16_777_216 * datum.number();
            word(5, Actor::Server(server), u64::from(parameter) + 8 * data)
        }
        Event::Release(engine, rule) => word(6, Actor::Engine(engine), rule.number()),
    }
}

/// Decodes an event from its word of 64 bits.
#[tactic(auto, unfolding(crate::specs::Words::unpack))]
pub(crate) fn unpack(word: u64) -> Event
    ensures { result ≡ unpack word }
{
    let actor = actor_of_place(word / 8 % 32);
    let numbers = word / 256;
    let parameter = (numbers % 8) as u8;
    match word % 8 {
        0 => Event::Take(actor),
        1 => Event::Local(actor, numbers),
        2 => Event::Call(actor),
        3 => Event::End(actor),
        4 => Event::Ask(actor.number(), RuleNo::new(numbers / 8), parameter),
        5 => Event::Deliver(
            actor.number(),
            DatumId::new(numbers / 8 / 16_777_216),
            RuleNo::new(numbers / 8 % 16_777_216),
            parameter,
        ),
        _ => Event::Release(actor.number(), RuleNo::new(numbers)),
    }
}
