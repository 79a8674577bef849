//! Slots, each with a datum.

ghost use Rattle.std.specs.Prelude.{◌≡◌, ◌≢◌, ℕ, IfNone, IfSome, IsSome, Some};
ghost use Rattle.tw_store.specs.declared.slot.Slot.{Slot as Meaning};
ghost use Rattle.tw_store.specs.Slots.{slot_at, IsSlotOf, IsAtPlace};

use crate::member::{Datum, Member};
use slab::Slab;
use tw_types::DatumId;

/// A datum with its id.
#[derive(Drop)]
pub struct Slot {
    pub id: DatumId,
    pub datum: Datum,
}

/// Returns the datum in the store's slot at a place.
pub fn datum_at(slab: &Slab<Slot>, place: usize) -> &Datum
    requires { IsSome (slot_at slab.now.slots place) }
    ensures { IfSome (slot_at slab.now.slots place) (λ e. result.now ≡ e.datum) }
{
    let Some(slot) = slab.get(place) else {
        unreachable!();
    };
    &slot.datum
}

/// Returns the datum of a member by its place in the store, if it is live.
pub fn member_at(slab: &Slab<Slot>, member: Member) -> Option<&Datum>
    ensures found { IfSome result (λ datum. IsSlotOf slab.now.slots member datum.now) }
    ensures absent { IfNone result ((e : Meaning) → slot_at slab.now.slots member.place ≡ Some e → e.id ≢ member.id) }
{
    let slot = slab.get(member.place)?;
    if slot.id.number() == member.id.number() {
        Some(&slot.datum)
    } else {
        None
    }
}

/// Searches the store's slots for the place of the datum of an id. Takes time linear in the number of places.
pub fn place_of(slab: &Slab<Slot>, id: DatumId) -> Option<usize>
    ensures found { IfSome result (λ place. IsAtPlace slab.now.slots id place) }
    ensures absent { IfNone result ((place : ℕ) (e : Meaning) → slot_at slab.now.slots place ≡ Some e → e.id ≢ id) }
{
    let number = id.number();
    for (place, slot) in slab.iter() {
        if slot.id.number() == number {
            return Some(place);
        }
    }
    None
}
