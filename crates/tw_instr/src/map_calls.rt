//! The calls on live data that are maps.

ghost use Rattle.std.specs.Prelude.{◌≡◌, OnOk, OnErr};
ghost use Rattle.std.specs.FinMap.{get};
ghost use Rattle.std.specs.Option.{option_copied};
ghost use Rattle.tw_types.specs.StoreCalls.{entry_at, value_put};
ghost use Rattle.tw_types.specs.StoreChecks.{may_add, may_put, may_read_entry};
ghost use Rattle.tw_types.specs.ValueOrder.{named};
ghost use Rattle.tw_datum.specs.Puts.{TakesValue};

use crate::changes::put_in;
use crate::data::Data;
use std::alloc::AllocError;
use tw_datum::checks;
use tw_types::{Cause, DatumId, Scalar, Value, ValueRef};

impl Data {
    /// Returns the value of a map at a subscript, by the id of the map.
    pub fn entry(&self, id: DatumId, subscript: ValueRef<'_>) -> Option<&Value>
        ensures { option_copied result ≡ entry_at self.now id (named subscript.entry) }
    {
        self.datum(id)?.value_at(subscript)
    }

    /// Puts a value into a map by its id, in place of one at the subscript.
    pub fn put(&mut self, id: DatumId, subscript: Value, value: Value) -> Result<(), AllocError>
        requires { TakesValue subscript value (get self.old.live id) }
        ensures put { OnOk result (self.new ≡ value_put self.old id subscript value) }
        ensures refused { OnErr result (self.new ≡ self.old) }
    {
        put_in(&mut self.live, id.number(), subscript, value)
    }

    /// Returns why a value can't be put into the map of an id, if it can't.
    pub fn may_put(&self, id: DatumId, subscript: &Value, value: &Value) -> Result<(), Cause>
        ensures { result ≡ may_put subscript.now value.now (get self.now.live id) }
    {
        checks::may_put(subscript, value, self.datum(id))
    }

    /// Returns why an integer can't be added to the map of an id, if it can't.
    pub fn may_add(&self, id: DatumId, subscript: &Value) -> Result<(), Cause>
        ensures { result ≡ may_add subscript.now (get self.now.live id) }
    {
        checks::may_add(subscript, self.datum(id))
    }

    /// Returns why a value can't be read from the map of an id, if it can't.
    pub fn may_read_entry(
        &self,
        id: DatumId,
        subscript: &Value,
        scalar: Scalar,
    ) -> Result<(), Cause>
        ensures { result ≡ may_read_entry subscript.now scalar (get self.now.live id) }
    {
        checks::may_read_entry(subscript, scalar, self.datum(id))
    }
}
