//! Results of finished runs.

ghost use Rattle.std.specs.Prelude.{◌≡◌, IfOk, IfSome, option_map};
ghost use Rattle.std.specs.FinMap.{get};
ghost use Rattle.std.specs.Option.{option_copied};
ghost use Rattle.tw_store.specs.Amounts.{amounts_in};
ghost use Rattle.tw_store.specs.Calls.{IsShown};
ghost use Rattle.tw_store.specs.Served.{KnowsPlaces};
ghost use Rattle.tw_code.specs.machine.State.{State};
ghost use Rattle.tw_soundness.specs.EndsWell.{EndsWell};
ghost use Rattle.tw_pool.specs.Ends.{IsClosedPool};
ghost use Rattle.tw_pool.specs.PoolView.{HasState};

use crate::answer::Closing;
use crate::history::History;
use crate::pending::all_pending;
use crate::pool::Pool;
use std::alloc::{AllocError, Global};
use std::marker::Model;
use tw_pool_state::Remains;
use tw_store::{Amounts, Datum, ShownMember};
use tw_types::{DatumId, Pending};
use tw_verify::ends_well;

/// A finished run, for reports: its data, its outputs, the rules that were pending, and the reason why it is over.
#[derive(Drop)]
pub struct Final {
    remains: Remains,
    closing: Option<Closing>,
}

impl Model for Final {
    ghost use Rattle.tw_pool.specs.Ends.{FinalView};
    ghost use Rattle.tw_types.specs.Store.{Datum as DatumMeaning};
    ghost use Rattle.std.specs.FinMap.{code};
    ghost use Rattle.std.specs.Ordering.{nat_cmp};
    ghost use Rattle.std.specs.Coded.{codes, coded_ℕ};
    ghost use Rattle.tw_types.specs.declared.value.Value.{Value as ValueMeaning};
    ghost use Rattle.tw_types.specs.ValueOrder.{value_cmp};

    ghost Value = { FinalView };

    ghost use Rattle.std.specs.Prelude.{map};
    ghost use Rattle.tw_pool.specs.Pendings.{pending_with_data};

    ghost coded = { Prim.hlevel (codes, code {X = DatumMeaning} {R = nat_cmp} coded_ℕ (Prim.hlevel (codes, code {R = value_cmp} (Prim.hlevel codes) coded_ℕ, code {X = ValueMeaning} {R = value_cmp} (Prim.hlevel codes) (Prim.hlevel codes))), code {R = nat_cmp} coded_ℕ coded_ℕ) };

    ghost view = { λ f. record {
      store = f.remains.store;
      outputs = f.remains.outputs.items;
      pending = map pending_with_data f.remains.pending.items;
      closing = f.closing;
    } };
}

impl Final {
    /// Returns the ids of the outputs that a closed pool left, by the order of main's parameters.
    pub fn outputs(&self) -> &[DatumId]
        ensures { result.now ≡ self.now.outputs }
    {
        &self.remains.outputs
    }

    /// Returns the datum of an id that a closed pool left, if it is live. Searches all places: use it for the few outputs.
    pub fn view(&self, id: DatumId) -> Option<&Datum>
        ensures datum { option_map (λ d. d.datum) (option_copied result) ≡ get self.now.store.store.live id }
        ensures members { IfSome result (λ datum. KnowsPlaces self.now.store datum.now) }
    {
        self.remains.store.view(id)
    }

    /// Returns the member of a container that a closed pool left, with `index` smaller subscripts, and its datum, which is found
    /// by its place. The container must be one that this run returned.
    pub fn member<'a>(&'a self, container: &'a Datum, index: usize) -> Option<ShownMember<'a>>
        requires { KnowsPlaces self.now.store container.now }
        ensures { IsShown self.now.store container.now index result }
    {
        self.remains.store.member(container, index)
    }

    /// Returns the id that a further datum of a closed pool would get. The first one has 1.
    pub fn next(&self) -> DatumId
        ensures { result ≡ self.now.store.store.next }
    {
        self.remains.store.next()
    }

    /// Returns how many members and bytes of texts a closed pool left. Looks at each live datum, and at each member and value.
    pub fn amounts(&self) -> Amounts
        ensures { result ≡ amounts_in self.now.store.store.live }
    {
        self.remains.store.amounts()
    }

    /// Returns the rules that a closed pool left pending, by rising number, each with the data for which it waits and those of its
    /// write rights.
    pub fn pending(&self, alloc: Global) -> Result<Vec<Pending>, AllocError>
        ensures { IfOk result (λ pending. pending.items ≡ self.now.pending) }
    {
        all_pending(alloc, self.remains.pending.as_slice())
    }

    /// Returns why the run of a closed pool is over, if it is.
    pub fn closing(&self) -> Option<Closing>
        ensures { result ≡ self.now.closing }
    {
        self.closing
    }
}

impl<'a> Pool<'a> {
    /// Closes the pool: spends every right, and returns the remains and the `History`. If the run has ended by itself, `ends_well`
    /// states how.
    pub fn shut(self) -> (Final, History)
        ensures left { IsClosedPool self.entry result.0 result.1 }
        ensures ends_well { (s : State) → HasState self.entry s → EndsWell self.entry.program.program s }
    {
        ends_well(self.verified);
        let closing = self.closing();
        let Pool {
            verified: _,
            inputs: _,
            layout: _,
            stopped: _,
            history,
            parts,
        } = self;
        let remains = parts.shut();
        (Final { remains, closing }, history)
    }
}
