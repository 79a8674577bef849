//! Members with integers as subscripts.

ghost use Rattle.std.specs.Prelude.{◌≡◌, option_map};
ghost use Rattle.std.specs.FinMap.{get};
ghost use Rattle.std.specs.declared.result.Result.TheVariants.{Ok};
ghost use Rattle.tw_types.specs.declared.data_type.Scalar.TheVariants as scalar;
ghost use Rattle.tw_types.specs.declared.value.Value.TheVariants.{Int as INT};
ghost use Rattle.tw_types.specs.StoreCalls.{subscript_after, subscripts_at};
ghost use Rattle.tw_types.specs.StoreChecks.{may_insert, may_look, may_read_subscripts_by};
ghost use Rattle.tw_store.specs.Served.{IsHere};
ghost use Rattle.tw_store.specs.Calls.{IsInsertion, IsLook, HasMemberRoom};

use crate::calls::Inserted;
use crate::store::Store;
use std::alloc::Global;
use tw_rights::{ReadRight, WriteRight};
use tw_types::{Value, ValueRef};

impl Store {
    /// Inserts a member at an integer, by `insert_under`.
    pub fn insert(
        &mut self,
        alloc: Global,
        right: &WriteRight,
        subscript: i64,
        member: ReadRight,
    ) -> Result<Inserted, ReadRight>
        requires here { IsHere self.old right.now }
        requires member_here { IsHere self.old member }
        requires allowed { may_insert scalar.Int (get self.old.store.live right.now.id) (get self.old.store.live member.id) ≡ Ok tt }
        ensures { IsInsertion self.old right.now.id (INT subscript) member result self.new }
    {
        self.insert_under(alloc, right, ValueRef::Int(subscript), member)
    }

    /// Returns a read right on the member at an integer, by `look_under`.
    pub fn look(&mut self, right: &ReadRight, subscript: i64) -> Option<ReadRight>
        requires here { IsHere self.old right.now }
        requires allowed { may_look self.old.store right.now.id (INT subscript) ≡ Ok tt }
        requires room { HasMemberRoom self.old.store right.now.id (INT subscript) }
        ensures { IsLook self.old right.now.id (INT subscript) result self.new }
    {
        self.look_under(right, ValueRef::Int(subscript))
    }

    /// Like `nth_subscript`, for a container or a map with integers as subscripts.
    pub fn subscript_at(&self, right: &ReadRight, index: i64) -> Option<i64>
        requires here { IsHere self.now right.now }
        requires allowed { may_read_subscripts_by scalar.Int (get self.now.store.live right.now.id) ≡ Ok tt }
        ensures { option_map INT result ≡ subscript_after index (subscripts_at self.now.store right.now.id) }
    {
        match self.nth_subscript(right, index) {
            Some(Value::Int(subscript)) => Some(*subscript),
            Some(Value::Text(_)) => unreachable!(),
            None => None,
        }
    }
}
