//! RULE.

ghost use Rattle.std.specs.Prelude.{◌≡◌, IfErr, IfOk, OnOk, OnErr};
ghost use Rattle.tw_types.specs.declared.event.Event.TheVariants as event;
ghost use Rattle.tw_code.specs.declared.instr.Instr.TheVariants as instr;
ghost use Rattle.tw_pool_state.specs.Events.{IsIssued, MakesAfter, IsAtInstr, Untouched};

use crate::operands::action_operands;
use crate::parts::Parts;
use std::alloc::Global;
use tw_code::Action;
use tw_frame::{Done, Job};
use tw_rules::PlannedTask;
use tw_types::Actor;

impl<'a> Parts<'a> {
    /// Completes the actor's job in the pool, executes this RULE, at which the task then is, and issues the next job. `event_no`
    /// is the number of its actor's events. Returns the `Done` if an allocation fails.
    pub(crate) fn rule(
        &mut self,
        alloc: Global,
        actor: Actor,
        event_no: u64,
        action: &Action,
        done: Done<'a>,
    ) -> Result<Job<'a>, Done<'a>>
        requires fits_place { IsAtInstr self.old actor done (instr.Rule action.now) }
        ensures rule { OnOk result (MakesAfter (event.Call actor) self.old actor done.entry self.new) }
        ensures lent { IfOk result (λ job. IsIssued self.new actor event_no job) }
        ensures refused { OnErr result (Untouched self.old self.new) }
        ensures back { IfErr result (λ back. back ≡ done.entry) }
    {
        let Ok(asked) = action_operands(alloc, &done, action) else {
            return Err(done);
        };
        let (callee, priority) = (asked.callee, asked.priority);
        let engine = actor.number();
        let Ok(()) = self.rules.reserve(engine) else {
            return Err(done);
        };
        let (params, registers) = (callee.params.as_slice(), action.args.as_slice());
        let Ok(room) = Vec::with_capacity(alloc, params.len()) else {
            return Err(done);
        };
        let (args, job) = self
            .running_tasks
            .take_args(actor, event_no, done, registers, asked, room);
        let planned = PlannedTask {
            procedure: action.procedure,
            priority,
            target: action.target,
        };
        match self.rules.add(engine, params, planned, args) {
            Ok(_number) => Ok(job),
            Err(_args) => unreachable!(),
        }
    }
}
