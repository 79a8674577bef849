//! The remains of a finished run.

ghost use Rattle.std.specs.Prelude.{◌≡◌, map as each};
ghost use Rattle.std.specs.FinMap.{entries};
ghost use Rattle.tw_rights.specs.Rights.{Right};
ghost use Rattle.tw_rules.specs.Table.{erasure};

use crate::parts::Parts;
use tw_rules::ErasedRule;
use tw_store::Store;
use tw_types::DatumId;

/// The data of a finished run for reports, without rights: the store, the outputs by the order of main's parameters, and the rules
/// that were pending, by rising number.
#[derive(Drop)]
pub struct Remains {
    pub store: Store,
    pub outputs: Vec<DatumId>,
    pub pending: Vec<ErasedRule>,
}

impl<'a> Parts<'a> {
    /// Spends every right in the parts of a pool, and returns what its run leaves. Allocates nothing.
    pub fn shut(self) -> Remains
        ensures store { result.store ≡ self.entry.store }
        ensures outputs { result.outputs.items ≡ each (λ (r : Right). r.id) self.entry.outputs }
        ensures pending { result.pending.items ≡ each erasure (entries self.entry.rules.rules) }
    {
        let Parts {
            store,
            rules,
            tasks,
            next_task: _,
            running_tasks,
            outputs,
        } = self;
        tasks.shut();
        running_tasks.shut();
        Remains {
            store,
            outputs: outputs.shut(),
            pending: rules.shut(),
        }
    }
}
