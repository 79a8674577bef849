//! The outputs of a run.

ghost use Rattle.std.specs.Prelude.{◌≡◌, map as each};
ghost use Rattle.tw_rights.specs.Rights.{Right};

use std::marker::Model;
use tw_rights::ReadRight;
use tw_types::DatumId;

/// The outputs, by the order of main's parameters: a right of the host's on each. Their ids are stored separately, so that
/// they can be reported at the end without an allocation.
pub struct Outputs {
    rights: Vec<ReadRight>,
    ids: Vec<DatumId>,
}

impl Model for Outputs {
    ghost use Rattle.std.specs.Prelude.{List, ◌≡◌, map as each};
    ghost use Rattle.tw_rights.specs.Rights.{Right};

    ghost Value = { List Right };

    ghost view = { λ o. o.rights.items };

    ghost invariant = { λ o. o.ids.items ≡ each (λ (r : Right). r.id) o.rights.items };
}

/// Spends the host's rights on the outputs.
fn spend_all(mut rights: Vec<ReadRight>) {
    while let Some(right) = rights.pop() {
        let _id = right.spend();
    }
    rights.destroy_empty();
}

impl Outputs {
    /// Makes the pool's outputs of the host's rights, with the ids of their data.
    pub fn new(rights: Vec<ReadRight>, ids: Vec<DatumId>) -> Outputs
        requires { ids.items ≡ each (λ (r : Right). r.id) rights.items }
        ensures { result ≡ rights.items }
    {
        Outputs { rights, ids }
    }

    /// Spends the host's rights on the outputs, and returns the ids of their data.
    pub fn shut(self) -> Vec<DatumId>
        ensures { result.items ≡ each (λ (r : Right). r.id) self }
    {
        let Outputs { rights, ids } = self;
        spend_all(rights);
        ids
    }
}
