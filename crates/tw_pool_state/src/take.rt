//! An actor takes a task.

ghost use Rattle.std.specs.Prelude.{◌≡◌, ℕ, None, OnErr, true};
ghost use Rattle.std.specs.FinMap.{get};
ghost use Rattle.tw_types.specs.Actor.{is_in};
ghost use Rattle.tw_types.specs.declared.event.Event.TheVariants as event;
ghost use Rattle.tw_types.specs.Layout.{ActorCounts};
ghost use Rattle.tw_types.specs.Notices.{Notices};
ghost use Rattle.tw_types.specs.Task.{TaskOf, best};
ghost use Rattle.tw_rights.specs.declared.arg.Arg.{Arg};
ghost use Rattle.tw_frame.specs.Jobs.{JobView};
ghost use Rattle.tw_pool_state.specs.Events.{IsIssued, IsTaken, Makes, Untouched};
ghost use Rattle.tw_pool_state.specs.Fits.{AreParts};
ghost use Rattle.tw_pool_state.specs.Memory.{TakesTexts};

use crate::parts::Parts;
use std::alloc::{AllocError, Global};
use tw_frame::Job;
use tw_types::Actor;
use tw_verify::Verified;

impl<'a> Parts<'a> {
    /// Starts in the pool the best task of an actor without one, if there is one, and issues its job. `event_no` is the number of
    /// its actor's events.
    pub fn take(
        &mut self,
        verified: &'a Verified,
        alloc: Global,
        actor: Actor,
        event_no: u64,
    ) -> Result<Option<Job<'a>>, AllocError>
        requires free { get self.old.running_tasks.tasks actor ≡ None }
        requires parts { (layout : ActorCounts) × (notices : Notices) × AreParts verified.now layout self.old notices × (is_in layout actor ≡ true) }
        ensures taken { IsTaken (best actor self.old.tasks.tasks)
            (λ (e : ℕ × TaskOf Arg) (job : JobView). IsIssued self.new actor event_no job
            × ((layout : ActorCounts) → is_in layout actor ≡ true → Makes verified.now layout (event.Take actor) self.old self.new))
            (Untouched self.old self.new) result }
        ensures memory { OnErr result (TakesTexts verified.now.program (best actor self.old.tasks.tasks)) }
    {
        self.running_tasks
            .start(alloc, actor, verified, event_no, &mut self.tasks)
    }
}
