//! How a run ends by itself.

ghost use Rattle.std.specs.Prelude.{◌≡◌, ◌<◌, ◌≤◌, ◌⊎◌, ℕ, [], None, Some, MatchBool, is_some, true, length, slice_get, slice_index_or};
ghost use Rattle.tw_types.specs.declared.notice.Notice.{Notice as NoticeMeaning};
ghost use Rattle.tw_types.specs.Notices.{Notices};
ghost use Rattle.tw_types.specs.Rule.{next_ask, next_release};
ghost use Rattle.tw_code.specs.machine.Ending.{ending, is_quiet};
ghost use Rattle.tw_verify.specs.Typed.{TypedProgram};
ghost use Rattle.tw_pool_state.specs.Fits.{AreParts};
ghost use Rattle.tw_pool_state.specs.Parts.{state_of};

use crate::parts::Parts;
use tw_rules::RuleTable;
use tw_store::Store;
use tw_types::{Ending, Layout};

/// Returns whether a notice waits for one of the first `servers` servers, so that the pool isn't quiet.
#[inline(never)]
fn has_notice(store: &Store, servers: u8) -> bool
    requires { servers ≤ length store.now.queues }
    ensures { MatchBool result
        ((server : ℕ) × (n : NoticeMeaning) × (slice_get (slice_index_or store.now.queues server []) 0 ≡ Some n))
        ((server : ℕ) → server < servers → slice_get (slice_index_or store.now.queues server []) 0 ≡ None) }
{
    for server in 0..servers {
        if store.oldest_notice(server).is_some() {
            return true;
        }
    }
    false
}

/// Returns whether one of the first `engines` engines has something to ask for or to release, so that the pool isn't quiet.
#[inline(never)]
fn has_work(rules: &RuleTable, engines: u8) -> bool
    ensures { MatchBool result
        ((engine : ℕ) × ((is_some (next_ask engine rules.now.rules) ≡ true) ⊎ (is_some (next_release engine rules.now.rules) ≡ true)))
        ((engine : ℕ) → engine < engines → (next_ask engine rules.now.rules ≡ None) × (next_release engine rules.now.rules ≡ None)) }
{
    for engine in 0..engines {
        if rules.next_ask(engine).is_some() {
            return true;
        }
        if rules.next_release(engine).is_some() {
            return true;
        }
    }
    false
}

impl<'a> Parts<'a> {
    /// Returns whether in the pool no task runs or waits, no notice has to be delivered, and no engine has anything to do with its
    /// rules. Reads only counters, and the first entries of at most four queues and four agendas.
    #[inline(always)]
    fn is_quiet(&self, layout: Layout) -> bool
        requires parts { (verified : TypedProgram) × (notices : Notices) × AreParts verified layout self.now notices }
        ensures { (verified : TypedProgram) (notices : Notices) → AreParts verified layout self.now notices → result ≡ is_quiet (state_of self.now notices) }
    {
        if self.running_tasks.running() != 0 {
            return false;
        }
        if self.tasks.len() != 0 {
            return false;
        }
        if has_notice(&self.store, layout.servers()) {
            return false;
        }
        !has_work(&self.rules, layout.engines())
    }

    /// Returns the end of the pool's run, if it has ended by itself.
    #[inline(always)]
    pub fn ending(&self, layout: Layout) -> Option<Ending>
        requires parts { (verified : TypedProgram) × (notices : Notices) × AreParts verified layout self.now notices }
        ensures { (verified : TypedProgram) (notices : Notices) → AreParts verified layout self.now notices → result ≡ ending (state_of self.now notices) }
    {
        if !self.is_quiet(layout) {
            return None;
        }
        let pending = self.rules.pending();
        if pending == 0 {
            Some(Ending::Quiet)
        } else {
            Some(Ending::Stuck(pending as u64))
        }
    }
}
