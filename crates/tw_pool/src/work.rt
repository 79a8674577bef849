//! Which actors have work.

ghost use Rattle.std.specs.Prelude.{◌≡◌, false, true};
ghost use Rattle.tw_types.specs.Actor.{is_in};
ghost use Rattle.tw_pool.specs.Work.{LacksWork, AreTargeted};

use crate::pool::Pool;
use tw_types::{Actor, Kind};

impl<'a> Pool<'a> {
    /// Returns whether the pool has work that others made for this actor alone: a rule to release, a notice, or a task that names
    /// it.
    pub fn has_own_work(&self, actor: Actor) -> bool
        requires { is_in self.now.layout actor ≡ true }
        ensures { result ≡ false → LacksWork self.now actor }
    {
        self.parts.has_own_work(actor)
    }

    /// Returns whether a task of this kind without a target waits in the pool.
    pub fn has_untargeted(&self, kind: Kind) -> bool
        ensures { result ≡ false → AreTargeted self.now kind }
    {
        self.parts.has_untargeted(kind)
    }
}
