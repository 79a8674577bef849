//! The actor of an event.

ghost use Rattle.std.specs.Prelude.{◌≡◌};
ghost use Rattle.tw_code.specs.machine.History.{actor_of};

use tw_types::{Actor, Event};

/// Returns the actor that makes an event of the machine.
pub fn actor_of(event: &Event) -> Actor
    ensures { result ≡ actor_of event.now }
{
    match *event {
        Event::Take(actor) | Event::Call(actor) | Event::End(actor) => actor,
        Event::Local(actor, _) => actor,
        Event::Ask(engine, _, _) | Event::Release(engine, _) => Actor::Engine(engine),
        Event::Deliver(server, _, _, _) => Actor::Server(server),
    }
}
