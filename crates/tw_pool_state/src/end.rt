//! A task ends.

ghost use Rattle.tw_types.specs.declared.event.Event.TheVariants as event;
ghost use Rattle.tw_code.specs.declared.instr.Instr.TheVariants as instr;
ghost use Rattle.tw_pool_state.specs.Events.{MakesAfter, IsAtInstr};

use crate::parts::Parts;
use std::alloc::Global;
use tw_frame::Done;
use tw_types::Actor;

impl<'a> Parts<'a> {
    /// Ends the actor's task in the pool, which is at RET after the job of `done`.
    pub fn end(&mut self, alloc: Global, actor: Actor, done: Done<'a>)
        requires fits_place { IsAtInstr self.old actor done instr.Ret }
        ensures { MakesAfter (event.End actor) self.old actor done.entry self.new }
    {
        self.running_tasks.end(alloc, actor, done);
    }
}
