//! An engine asks for a parameter of a rule.

ghost use Rattle.std.specs.Prelude.{◌≡◌, ℕ, None, OnErr, Some};
ghost use Rattle.std.specs.FinMap.{get};
ghost use Rattle.tw_types.specs.declared.actor.Actor.TheVariants.{Engine};
ghost use Rattle.tw_types.specs.declared.event.Event.TheVariants.{Ask};
ghost use Rattle.tw_types.specs.Layout.{ActorCounts};
ghost use Rattle.tw_types.specs.Notices.{Notices};
ghost use Rattle.tw_types.specs.Rule.{next_ask};
ghost use Rattle.tw_verify.specs.Typed.{TypedProgram};
ghost use Rattle.tw_pool_state.specs.Events.{IsTried, Makes, Untouched};
ghost use Rattle.tw_pool_state.specs.Fits.{AreParts};
ghost use Rattle.tw_pool_state.specs.Memory.{IsAskOfOpen};
ghost use Rattle.tw_pool_state.specs.Parts.{state_of};

use crate::parts::Parts;
use std::alloc::AllocError;
use tw_store::AskResult;
use tw_types::RuleNo;

impl<'a> Parts<'a> {
    /// Asks in the pool for the next unasked parameter of an engine without a task. Returns the rule and the parameter, or `None`
    /// if there is none.
    pub fn ask(&mut self, engine: u8) -> Result<Option<(RuleNo, u8)>, AllocError>
        requires free { get self.old.running_tasks.tasks (Engine engine) ≡ None }
        requires parts { (verified : TypedProgram) × (layout : ActorCounts) × (notices : Notices) × AreParts verified layout self.old notices }
        ensures asked { IsTried (next_ask engine self.old.rules.rules)
            (λ (q : ℕ × ℕ). (verified : TypedProgram) (layout : ActorCounts) → Makes verified layout (Ask engine q.0 q.1) self.old self.new)
            (Untouched self.old self.new) result }
        ensures memory { OnErr result ((q : ℕ × ℕ) (notices : Notices) → next_ask engine self.old.rules.rules ≡ Some q → IsAskOfOpen (state_of self.old notices) q.0 q.1) }
    {
        let Some(next) = self.rules.next_ask(engine) else {
            return Ok(None);
        };
        let (rule, parameter) = next;
        let right = self.rules.asked_right(rule, parameter);
        let Ok(asked) = self.store.ask(right, rule, parameter) else {
            return Err(AllocError);
        };
        match asked {
            AskResult::Closed => {
                self.rules.mark_ready(rule, parameter);
                Ok(Some((rule, parameter)))
            }
            AskResult::Noted => {
                self.rules.mark_asked(rule, parameter);
                Ok(Some((rule, parameter)))
            }
        }
    }
}
