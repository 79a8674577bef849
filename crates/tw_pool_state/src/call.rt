//! An instruction that is an event of its own.

ghost use Rattle.std.specs.Prelude.{◌≡◌, IfErr, IfOk, None, OnErr, OnOk, false};
ghost use Rattle.tw_types.specs.declared.event.Event.TheVariants as event;
ghost use Rattle.tw_code.specs.machine.Machine.{is_ret, local_of};
ghost use Rattle.tw_frame.specs.Jobs.{FrameView};
ghost use Rattle.tw_pool_state.specs.Coming.{frame_after};
ghost use Rattle.tw_pool_state.specs.Events.{IsIssued, IsOwed, MakesAfter, IsAtInstr, Untouched};
ghost use Rattle.tw_pool_state.specs.Memory.{CallTakes};

use crate::parts::Parts;
use std::alloc::Global;
use tw_code::Instr;
use tw_frame::{Done, Job};
use tw_types::Actor;

impl<'a> Parts<'a> {
    /// Completes the actor's job in the pool, executes this instruction, at which the task then is, and issues the next job. The
    /// instruction is on data, RULE or PUT. `event_no` is the number of its actor's events. Returns the `Done` if an allocation
    /// fails.
    pub fn call(
        &mut self,
        alloc: Global,
        actor: Actor,
        event_no: u64,
        instr: &Instr,
        done: Done<'a>,
    ) -> Result<Job<'a>, Done<'a>>
        requires fits_place { IsAtInstr self.old actor done instr.now }
        requires not_local { local_of instr.now ≡ None }
        requires not_last { is_ret instr.now ≡ false }
        ensures called { OnOk result (MakesAfter (event.Call actor) self.old actor done.entry self.new) }
        ensures lent { IfOk result (λ job. IsIssued self.new actor event_no job) }
        ensures refused { OnErr result (Untouched self.old self.new) }
        ensures back { IfErr result (λ back. back ≡ done.entry) }
        ensures memory { OnErr result ((f : FrameView) → IsOwed self.old actor f done.entry → CallTakes instr.now self.old.store (frame_after f done.entry)) }
    {
        match instr {
            Instr::Data(instr) => self
                .running_tasks
                .exec_data(actor, &mut self.store, alloc, event_no, done, instr),
            Instr::Rule(action) => self.rule(alloc, actor, event_no, action, done),
            Instr::Put(action) => self.put(alloc, actor, event_no, action, done),
            Instr::Local(_) | Instr::Ret => unreachable!(),
        }
    }
}
