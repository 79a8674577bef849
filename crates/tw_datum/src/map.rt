//! The values of a datum that is a map.

ghost use Rattle.std.specs.Prelude.{◌≡◌, OnOk, OnErr, true, slice_get};
ghost use Rattle.std.specs.FinMap as map;
ghost use Rattle.std.specs.Option.{option_copied};
ghost use Rattle.tw_types.specs.DataType.{is_map_of};
ghost use Rattle.tw_types.specs.StoreCalls.{count_in, entries_in, with_entry};
ghost use Rattle.tw_types.specs.Value.{scalar_of};
ghost use Rattle.tw_types.specs.ValueOrder.{named};
ghost use Rattle.tw_datum.specs.Kept.{AreValues, has_entries};

use crate::datum::{Content, Datum};
use crate::member::Member;
use crate::ranked_map::RankedMap;
use std::alloc::AllocError;
use tw_types::{Value, ValueRef};

impl<M: Member> Datum<M> {
    /// Returns the sorted values of a datum, or `None` for a scalar or a container.
    fn values(&self) -> Option<&RankedMap<Value>>
        ensures { AreValues self.now (option_copied result) }
    {
        match &self.content {
            Content::Maps(values) => Some(values),
            Content::Unset | Content::Set(_) | Content::Contains(_) => None,
        }
    }

    /// Returns whether a datum is a map, of values or of sums.
    pub fn is_map(&self) -> bool
        ensures { result ≡ has_entries self.now.datum.content }
    {
        matches!(self.content, Content::Maps(_))
    }

    /// Returns the number of a datum's members, or of its values; a scalar has none.
    pub fn count(&self) -> usize
        ensures { result ≡ count_in self.now.datum.content }
    {
        match &self.content {
            Content::Contains(members) => members.len(),
            Content::Maps(values) => values.len(),
            Content::Unset | Content::Set(_) => 0,
        }
    }

    /// Returns the value of a datum that is a map, at a subscript.
    pub fn value_at(&self, subscript: ValueRef<'_>) -> Option<&Value>
        ensures { option_copied result ≡ map.get (entries_in self.now.datum.content) (named subscript.entry) }
    {
        match self.values() {
            Some(values) => values.get(subscript),
            None => None,
        }
    }

    /// Returns the value of a datum that is a map, with `index` smaller subscripts, and its subscript.
    pub fn nth_value(&self, index: usize) -> Option<&(Value, Value)>
        ensures { option_copied result ≡ slice_get (map.entries (entries_in self.now.datum.content)) index }
    {
        match self.values() {
            Some(values) => values.nth(index),
            None => None,
        }
    }

    /// Puts a value into a datum that is a map, in place of one at the subscript.
    pub fn put_value(&mut self, subscript: Value, value: Value) -> Result<(), AllocError>
        requires { is_map_of (scalar_of subscript) (scalar_of value) self.old.datum.ty ≡ true }
        ensures added { OnOk result (self.new ≡ record self.old { datum = with_entry subscript value self.old.datum }) }
        ensures refused { OnErr result (self.new ≡ self.old) }
    {
        match &mut self.content {
            Content::Maps(values) => values.insert(subscript, value),
            Content::Unset | Content::Set(_) | Content::Contains(_) => unreachable!(),
        }
    }
}
