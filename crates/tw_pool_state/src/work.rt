//! Which actors have work.

ghost use Rattle.std.specs.Prelude.{◌≡◌, ◌<◌, ℕ, [], None, false, length};
ghost use Rattle.tw_types.specs.declared.actor.Actor.TheVariants.{Server};
ghost use Rattle.tw_types.specs.Rule.{next_release};
ghost use Rattle.tw_queue.specs.Targets.{HaveTargets};
ghost use Rattle.tw_pool_state.specs.Notes.{queue_at};
ghost use Rattle.tw_pool_state.specs.Work.{HasNoWork};

use crate::parts::Parts;
use tw_types::{Actor, Kind};

impl<'a> Parts<'a> {
    /// Returns whether the pool has work for a server: a notice to deliver.
    fn has_notice(&self, server: u8) -> bool
        requires { server < length self.now.store.queues }
        ensures { result ≡ false → queue_at self.now.store.queues server ≡ [] }
    {
        self.store.oldest_notice(server).is_some()
    }

    /// Returns whether the pool has work for an engine: a rule to release.
    fn has_release(&self, engine: u8) -> bool
        ensures { result ≡ false → next_release engine self.now.rules.rules ≡ None }
    {
        self.rules.next_release(engine).is_some()
    }

    /// Returns whether the pool has work that others made for this actor alone. Asks aren't counted: an engine makes its rules
    /// itself.
    pub fn has_own_work(&self, actor: Actor) -> bool
        requires { (server : ℕ) → actor ≡ Server server → server < length self.now.store.queues }
        ensures { result ≡ false → HasNoWork actor self.now }
    {
        match actor {
            Actor::Engine(engine) => self.has_release(engine) || self.tasks.has_targeted(actor),
            Actor::Server(server) => self.has_notice(server),
            Actor::Worker(_) => self.tasks.has_targeted(actor),
        }
    }

    /// Returns whether a task of this kind without a target waits in the pool's queues.
    pub fn has_untargeted(&self, kind: Kind) -> bool
        ensures { result ≡ false → HaveTargets kind self.now.tasks.tasks }
    {
        self.tasks.has_untargeted(kind)
    }
}
