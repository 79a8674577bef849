//! A server delivers a notice.

ghost use Rattle.std.specs.Prelude.{◌≡◌, ◌<◌, [], MatchOption, Some, length, slice_get};
ghost use Rattle.tw_types.specs.declared.event.Event.TheVariants.{Deliver};
ghost use Rattle.tw_types.specs.Layout.{ActorCounts};
ghost use Rattle.tw_types.specs.Notices.{Notices};
ghost use Rattle.tw_verify.specs.Typed.{TypedProgram};
ghost use Rattle.tw_pool_state.specs.Events.{Makes, Untouched};
ghost use Rattle.tw_pool_state.specs.Fits.{AreParts};
ghost use Rattle.tw_pool_state.specs.Notes.{queue_at};

use crate::parts::Parts;
use tw_types::Notice;

impl<'a> Parts<'a> {
    /// Delivers the oldest notice of a server of the pool, if there is one: makes its parameter ready.
    pub fn deliver(&mut self, server: u8) -> Option<Notice>
        requires server { server < length self.old.store.queues }
        requires parts { (verified : TypedProgram) × (layout : ActorCounts) × (notices : Notices) × AreParts verified layout self.old notices }
        ensures { MatchOption result
            ((queue_at self.old.store.queues server ≡ []) × Untouched self.old self.new)
            (λ n. (slice_get (queue_at self.old.store.queues server) 0 ≡ Some n) × ((verified : TypedProgram) (layout : ActorCounts) → Makes verified layout (Deliver server n.datum n.rule n.parameter) self.old self.new)) }
    {
        let notice = self.store.take_note(server)?;
        self.rules.mark_ready(notice.rule, notice.parameter);
        Some(notice)
    }
}
