//! The calls that change one datum, on the slots.

ghost use Rattle.std.specs.Prelude.{◌≡◌, ◌<◌, ◌≤◌, ◌^◌, ℕ, OnOk, OnErr, IfSome, IsSome, true};
ghost use Rattle.std.specs.FinMap.{get, insert};
ghost use Rattle.tw_types.specs.DataType.{is_container_by, is_map_of, is_scalar};
ghost use Rattle.tw_types.specs.StoreCalls.{set_to, one_read_more, one_write_more, one_write_less, with_entry, with_member, with_subscriber};
ghost use Rattle.tw_types.specs.Value.{IsProper, scalar_of};
ghost use Rattle.tw_types.specs.ValueOrder.{named};
ghost use Rattle.tw_store.specs.Parts.{data_room_of};
ghost use Rattle.tw_store.specs.Slots.{slot_at, places_of, AreSeated, IsChanged, IsChangedAt, IsInsertedAt, IsSettled};

use crate::freeing::free_unheld;
use crate::member::Member;
use crate::slot::Slot;
use slab::Slab;
use std::alloc::{AllocError, Global};
use tw_types::{Subscriber, Value, ValueRef};

/// Sets the scalar at a place of the store, which closes it.
pub fn set_at(slab: &mut Slab<Slot>, place: usize, value: Value)
    requires seated { (next : ℕ) × AreSeated slab.old.slots next }
    requires there { IsSome (slot_at slab.old.slots place) }
    requires scalar { IfSome (slot_at slab.old.slots place) (λ e. is_scalar e.datum.datum.ty ≡ true) }
    requires write { IfSome (slot_at slab.old.slots place) (λ e. 0 < e.datum.datum.writes) }
    ensures settled { IfSome (slot_at slab.old.slots place) (λ e. IsSettled e.id (set_to value) slab.old.slots slab.new.slots) }
    ensures room { data_room_of slab.old ≤ data_room_of slab.new }
{
    let Some(slot) = slab.get_mut(place) else {
        unreachable!();
    };
    slot.datum.set(value);
    free_unheld(slab, place);
}

/// Takes one write of the container at a place of the store. The last one closes it.
pub fn drop_write_at(slab: &mut Slab<Slot>, place: usize)
    requires seated { (next : ℕ) × AreSeated slab.old.slots next }
    requires there { IsSome (slot_at slab.old.slots place) }
    requires write { IfSome (slot_at slab.old.slots place) (λ e. 0 < e.datum.datum.writes) }
    ensures settled { IfSome (slot_at slab.old.slots place) (λ e. IsSettled e.id one_write_less slab.old.slots slab.new.slots) }
    ensures room { data_room_of slab.old ≤ data_room_of slab.new }
{
    let Some(slot) = slab.get_mut(place) else {
        unreachable!();
    };
    slot.datum.take_write();
    free_unheld(slab, place);
}

/// Inserts a member into the container at a place of the store, at a copy of the subscript, unless that is taken. Returns whether
/// it inserted it.
pub fn insert_at(
    slab: &mut Slab<Slot>,
    alloc: Global,
    place: usize,
    subscript: ValueRef<'_>,
    member: Member,
) -> Result<bool, AllocError>
    requires there { IsSome (slot_at slab.old.slots place) }
    requires container { IfSome (slot_at slab.old.slots place) (λ e. is_container_by (scalar_of (named subscript)) e.datum.datum.ty ≡ true) }
    requires proper { IsProper (named subscript) }
    requires member { get (places_of slab.old.slots) member.id ≡ Some member.place }
    ensures inserted { IsInsertedAt place (named subscript.entry) member.id result slab.old.slots slab.new.slots }
    ensures room { data_room_of slab.old ≤ data_room_of slab.new }
{
    let Some(slot) = slab.get_mut(place) else {
        unreachable!();
    };
    slot.datum.add_absent(subscript, member)
}

/// Puts a value into the map at a place of the store.
pub fn put_at(
    slab: &mut Slab<Slot>,
    place: usize,
    subscript: Value,
    value: Value,
) -> Result<(), AllocError>
    requires there { IsSome (slot_at slab.old.slots place) }
    requires takes { IfSome (slot_at slab.old.slots place) (λ e. is_map_of (scalar_of subscript) (scalar_of value) e.datum.datum.ty ≡ true) }
    ensures put { OnOk result (IsChangedAt place (with_entry subscript value) slab.old.slots slab.new.slots) }
    ensures refused { OnErr result (slab.new.slots ≡ slab.old.slots) }
    ensures room { data_room_of slab.old ≤ data_room_of slab.new }
{
    let Some(slot) = slab.get_mut(place) else {
        unreachable!();
    };
    slot.datum.put_value(subscript, value)
}

/// Adds a read to the datum at a place of the store.
pub fn add_read_at(slab: &mut Slab<Slot>, place: usize)
    requires there { IsSome (slot_at slab.old.slots place) }
    requires room { IfSome (slot_at slab.old.slots place) (λ e. e.datum.datum.reads < 2 ^ 63) }
    ensures changed { IsChangedAt place one_read_more slab.old.slots slab.new.slots }
    ensures room { data_room_of slab.old ≤ data_room_of slab.new }
{
    let Some(slot) = slab.get_mut(place) else {
        unreachable!();
    };
    slot.datum.add_read();
}

/// Adds a write to the datum at a place of the store.
pub fn add_write_at(slab: &mut Slab<Slot>, place: usize)
    requires there { IsSome (slot_at slab.old.slots place) }
    requires room { IfSome (slot_at slab.old.slots place) (λ e. e.datum.datum.writes < 2 ^ 63) }
    ensures changed { IsChangedAt place one_write_more slab.old.slots slab.new.slots }
    ensures room { data_room_of slab.old ≤ data_room_of slab.new }
{
    let Some(slot) = slab.get_mut(place) else {
        unreachable!();
    };
    slot.datum.add_write();
}

/// Adds a subscriber to the datum at a place of the store.
pub fn subscribe_at(
    slab: &mut Slab<Slot>,
    place: usize,
    subscriber: Subscriber,
) -> Result<(), AllocError>
    requires { IsSome (slot_at slab.old.slots place) }
    ensures noted { OnOk result (IsChangedAt place (with_subscriber subscriber) slab.old.slots slab.new.slots) }
    ensures refused { OnErr result (slab.new.slots ≡ slab.old.slots) }
    ensures room { data_room_of slab.old ≤ data_room_of slab.new }
{
    let Some(slot) = slab.get_mut(place) else {
        unreachable!();
    };
    slot.datum.add_subscriber(subscriber)
}
