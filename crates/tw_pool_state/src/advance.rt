//! A task moves on by the local steps of its job.

ghost use Rattle.std.specs.Prelude.{◌≡◌, ◌<◌, MatchOption};
ghost use Rattle.tw_types.specs.declared.event.Event.TheVariants as event;
ghost use Rattle.tw_types.specs.Layout.{ActorCounts};
ghost use Rattle.tw_types.specs.Notices.{Notices};
ghost use Rattle.tw_frame.specs.Jobs.{FrameView};
ghost use Rattle.tw_pool_state.specs.Coming.{issued_as};
ghost use Rattle.tw_pool_state.specs.Events.{IsIssued, IsOwed, IsSmall, Makes, with_done};
ghost use Rattle.tw_pool_state.specs.Fits.{AreParts};
ghost use Rattle.tw_pool_state.specs.Parts.{state_of};

use crate::parts::Parts;
use tw_frame::{Done, Job};
use tw_types::{Actor, Event};

impl<'a> Parts<'a> {
    /// Returns the event of the steps of `done`, if there are any. `done` must be of the job that was issued last for the actor's task.
    pub fn event_of(&self, actor: Actor, done: &Done<'a>) -> Option<Event>
        requires owed { (f : FrameView) × IsOwed self.now actor f done.now }
        ensures { MatchOption result
            ((done.now.steps ≡ 0) × ((f : FrameView) → IsOwed self.now actor f done.now → with_done self.now actor f done.now ≡ self.now))
            (λ e. (0 < done.now.steps) × (e ≡ event.Local actor done.now.steps) × ((layout : ActorCounts) (f : FrameView) → IsOwed self.now actor f done.now
            → Makes done.now.before.program layout e self.now (with_done self.now actor f done.now))) }
    {
        let steps = done.steps();
        if steps == 0 {
            None
        } else {
            Some(Event::Local(actor, steps))
        }
    }

    /// Completes the job of the actor's task in the pool, and issues the next one. `event_no` is the number of its actor's events.
    pub fn advance(&mut self, actor: Actor, event_no: u64, done: Done<'a>) -> Job<'a>
        requires fits_place { (layout : ActorCounts) × (notices : Notices) × (f : FrameView) × AreParts done.before.program layout self.old notices
            × IsSmall (state_of self.old notices) × IsOwed self.old actor f done }
        ensures came { (f : FrameView) → IsOwed self.old actor f done.entry → self.new ≡ with_done self.old actor (issued_as event_no f) done.entry }
        ensures lent { IsIssued self.new actor event_no result }
    {
        self.running_tasks.advance(actor, event_no, done)
    }
}
