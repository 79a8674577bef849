//! The calls on maps.

ghost use Rattle.std.specs.Prelude.{◌≡◌, ◌+◌, ◌<◌, ◌≤◌, ◌^◌, IfOk, OnOk, OnErr};
ghost use Rattle.std.specs.FinMap.{get, insert};
ghost use Rattle.std.specs.Option.{option_copied};
ghost use Rattle.tw_types.specs.Store.{Maps, added};
ghost use Rattle.tw_types.specs.StoreCalls.{entry_at, value_put};
ghost use Rattle.tw_types.specs.Value.{IsProper};
ghost use Rattle.tw_types.specs.ValueOrder.{named};
ghost use Rattle.tw_datum.specs.Kept.{FitsType, closed_datum};
ghost use Rattle.tw_datum.specs.Puts.{TakesValue};
ghost use Rattle.tw_store.specs.Served.{IsHere, IsNow, IsUnchanged};

use crate::changes::put_at;
use crate::slot::{Slot, datum_at};
use crate::store::Store;
use std::alloc::{AllocError, Global};
use tw_datum::{Content, Datum, RankedMap};
use tw_rights::{ReadRight, WriteRight};
use tw_types::{DataType, DatumId, Value, ValueRef};

impl Store {
    /// Makes a closed map in the store with the next id and one read, at a free place.
    pub fn create_map(
        &mut self,
        alloc: Global,
        ty: DataType,
        values: RankedMap<Value>,
    ) -> Result<ReadRight, AllocError>
        requires room { self.old.store.next < 2 ^ 63 }
        requires fits { FitsType ty (Maps values) }
        ensures made { OnOk result (self.new.store ≡ added self.old.store (closed_datum ty (Maps values))) }
        ensures read { IfOk result (λ right. right.id ≡ self.old.store.next) }
        ensures places { IfOk result (λ right. self.new.places ≡ insert self.old.places self.old.store.next right.place) }
        ensures here { IfOk result (λ right. IsHere self.new right) }
        ensures quiet { self.new.queues ≡ self.old.queues }
        ensures data_room { self.old.data_room ≤ self.new.data_room + 1 }
        ensures notice_rooms { self.new.notice_rooms ≡ self.old.notice_rooms }
        ensures refused { OnErr result (IsUnchanged self.old self.new) }
    {
        let id = DatumId::new(self.next);
        let slot = Slot {
            id,
            datum: Datum::new_closed(alloc, ty, Content::Maps(values)),
        };
        let Ok(place) = self.slab.insert(slot) else {
            return Err(AllocError);
        };
        self.next += 1;
        Ok(ReadRight::of(id, place))
    }

    /// Returns the value of a map at a subscript, by a read right on the map.
    pub fn entry(&self, right: &ReadRight, subscript: ValueRef<'_>) -> Option<&Value>
        requires { IsHere self.now right.now }
        ensures { option_copied result ≡ entry_at self.now.store right.now.id (named subscript.entry) }
    {
        datum_at(&self.slab, right.place()).value_at(subscript)
    }

    /// Returns the value of a map at a subscript, by a write right on the map.
    pub fn written_entry(&self, right: &WriteRight, subscript: ValueRef<'_>) -> Option<&Value>
        requires { IsHere self.now right.now }
        ensures { option_copied result ≡ entry_at self.now.store right.now.id (named subscript.entry) }
    {
        datum_at(&self.slab, right.place()).value_at(subscript)
    }

    /// Puts a value into a map by a write right, at a copy of the subscript, in place of one that is there.
    pub fn put(
        &mut self,
        alloc: Global,
        right: &WriteRight,
        subscript: ValueRef<'_>,
        value: Value,
    ) -> Result<(), AllocError>
        requires here { IsHere self.old right.now }
        requires proper { IsProper (named subscript) }
        requires takes { TakesValue (named subscript) value (get self.old.store.live right.now.id) }
        ensures put { OnOk result (IsNow (value_put self.old.store right.now.id (named subscript.entry) value) self.old self.new) }
        ensures refused { OnErr result (IsUnchanged self.old self.new) }
    {
        let subscript = subscript.try_to_value(alloc)?;
        put_at(&mut self.slab, right.place(), subscript, value)
    }
}
