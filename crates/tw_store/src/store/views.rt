//! Reads the store without changing it.

ghost use Rattle.std.specs.Prelude.{◌≡◌, ◌<◌, IfSome, Some, length, slice_get, slice_index_or, []};
ghost use Rattle.std.specs.FinMap.{get};
ghost use Rattle.std.specs.Option.{option_copied};
ghost use Rattle.tw_datum.specs.Kept.{datum_if};
ghost use Rattle.tw_store.specs.Amounts.{amounts_in};
ghost use Rattle.tw_store.specs.Served.{AreOwn, IsHere, KnowsPlaces};
ghost use Rattle.tw_store.specs.Calls.{IsShown};

use crate::amounts::{Amounts, amounts_in};
use crate::member::{Datum, ShownMember};
use crate::slot::{datum_at, member_at, place_of};
use crate::store::Store;
use tw_rights::ReadRight;
use tw_types::{DatumId, Notice};

impl Store {
    /// Returns the number of servers for which the store queues notices.
    pub fn servers(&self) -> usize
        ensures count { result ≡ length self.now.queues }
        ensures some { 0 < length self.now.queues }
        ensures own { AreOwn self.now.queues }
    {
        self.queues.len()
    }

    /// Returns how many members and bytes of texts the store's live data have. Looks at each of them, and at each member and
    /// value.
    pub fn amounts(&self) -> Amounts
        ensures { result ≡ amounts_in self.now.store.live }
    {
        amounts_in(&self.slab)
    }

    /// Returns the id of the datum that the store makes next.
    pub fn next(&self) -> DatumId
        ensures { result ≡ self.now.store.next }
    {
        DatumId::new(self.next)
    }

    /// Returns the place of the datum of an id in the store, if it is live. Searches all places: use it for reports and tests.
    pub fn place_of(&self, id: DatumId) -> Option<usize>
        ensures { result ≡ get self.now.places id }
    {
        place_of(&self.slab, id)
    }

    /// Returns the datum of an id in the store, if it is live. Searches it like `place_of`.
    pub fn view(&self, id: DatumId) -> Option<&Datum>
        ensures datum { datum_if (option_copied result) ≡ get self.now.store.live id }
        ensures members { IfSome result (λ datum. KnowsPlaces self.now datum.now) }
    {
        match self.place_of(id) {
            Some(place) => Some(datum_at(&self.slab, place)),
            None => None,
        }
    }

    /// Returns the datum of a read right, at the right's place in the store.
    pub fn view_at(&self, right: &ReadRight) -> &Datum
        requires { IsHere self.now right.now }
        ensures datum { get self.now.store.live right.now.id ≡ Some result.now.datum }
        ensures members { KnowsPlaces self.now result.now }
    {
        datum_at(&self.slab, right.place())
    }

    /// Returns the member of a container with `index` smaller subscripts, with its datum, which is found by its place. The container
    /// must be one that the store returned after its last change.
    pub fn member<'a>(&'a self, container: &'a Datum, index: usize) -> Option<ShownMember<'a>>
        requires { KnowsPlaces self.now container.now }
        ensures { IsShown self.now container.now index result }
    {
        let (subscript, member) = container.nth_kept(index)?;
        Some(ShownMember {
            subscript,
            id: member.id,
            datum: member_at(&self.slab, *member),
        })
    }

    /// Returns the notice that the store's `take_note` returns next for a server. It stays in its queue.
    pub fn oldest_notice(&self, server: u8) -> Option<&Notice>
        requires { server < length self.now.queues }
        ensures { option_copied result ≡ slice_get (slice_index_or self.now.queues server []) 0 }
    {
        let queue = &self.queues[usize::from(server)];
        queue.front()
    }
}
