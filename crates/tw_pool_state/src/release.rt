//! An engine releases a rule.

ghost use Rattle.std.specs.Prelude.{◌≡◌, ◌<◌, ◌^◌, ℕ, None, Some, IsSome, slice_get};
ghost use Rattle.std.specs.FinMap.{get};
ghost use Rattle.tw_types.specs.declared.actor.Actor.TheVariants.{Engine};
ghost use Rattle.tw_types.specs.declared.event.Event.TheVariants.{Release};
ghost use Rattle.tw_types.specs.Layout.{ActorCounts};
ghost use Rattle.tw_types.specs.Notices.{Notices};
ghost use Rattle.tw_types.specs.Rule.{next_release};
ghost use Rattle.tw_pool_state.specs.Events.{IsTried, Makes, Untouched};
ghost use Rattle.tw_pool_state.specs.Fits.{AreParts};

use crate::parts::Parts;
use std::alloc::AllocError;
use tw_code::Procedure;
use tw_queue::Task;
use tw_types::{RuleNo, TaskNo};
use tw_verify::Verified;

/// Returns the procedure of a rule's task by its number, in the verified program.
pub(crate) fn procedure_at(procedures: &[Procedure], number: u8) -> &Procedure
    requires { IsSome (slice_get procedures.now number) }
    ensures { slice_get procedures.now number ≡ Some result.now }
{
    &procedures[usize::from(number)]
}

impl<'a> Parts<'a> {
    /// Releases in the pool the next rule of an engine without a task. Returns its number, or `None` if none can be released.
    pub fn release(&mut self, verified: &Verified, engine: u8) -> Result<Option<RuleNo>, AllocError>
        requires free { get self.old.running_tasks.tasks (Engine engine) ≡ None }
        requires number { self.old.next_task < 2 ^ 63 }
        requires parts { (layout : ActorCounts) × (notices : Notices) × AreParts verified.now layout self.old notices }
        ensures { IsTried (next_release engine self.old.rules.rules)
            (λ (rule : ℕ). (layout : ActorCounts) → Makes verified.now layout (Release engine rule) self.old self.new)
            (Untouched self.old self.new) result }
    {
        let Some(rule) = self.rules.next_release(engine) else {
            return Ok(None);
        };
        let action = self.rules.action(rule);
        let callee = procedure_at(verified.program().procedures(), action.procedure);
        let kind = callee.kind;
        let Ok(()) = self.tasks.reserve(kind, action.target) else {
            return Err(AllocError);
        };
        let args = self.rules.release(rule);
        let number = self.next_task;
        let task = Task {
            no: TaskNo::new(number),
            procedure: action.procedure,
            args,
        };
        match self.tasks.put(kind, action.priority, action.target, task) {
            Ok(()) => {}
            Err(_task) => unreachable!(),
        }
        self.next_task = number + 1;
        Ok(Some(rule))
    }
}
