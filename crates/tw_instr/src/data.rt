//! The live data of the reference machine.

ghost use Rattle.std.specs.Prelude.{◌≡◌, ◌<◌, ◌^◌, IfOk, IfSome, OnOk, OnErr, map as each};
ghost use Rattle.std.specs.FinMap.{get};
ghost use Rattle.std.specs.Option.{option_copied};
ghost use Rattle.std.specs.declared.result.Result.TheVariants.{Ok};
ghost use Rattle.tw_types.specs.Store.{empty_store, added, notice_to};
ghost use Rattle.tw_types.specs.StoreCalls.{created, stored, inserted, read_copied, write_copied, read_dropped, write_dropped, subscribed, value_at, member_at, size_at, subscript_after, subscripts_at, notices_of_stored, notices_of_write_dropped};
ghost use Rattle.tw_types.specs.StoreChecks.{may_store, may_retrieve, may_insert, may_look, may_read_members, may_read_subscripts_by, may_be_read, may_copy_write, may_drop_read, may_drop_write};
ghost use Rattle.tw_types.specs.declared.data_type.Scalar.{Scalar as ScalarMeaning};
ghost use Rattle.tw_types.specs.declared.value.Value.{Value as ValueMeaning};
ghost use Rattle.tw_types.specs.Value.{scalar_of};
ghost use Rattle.tw_types.specs.ValueOrder.{named};
ghost use Rattle.tw_datum.specs.Kept.{closed_datum, datum_if, FitsType};
ghost use Rattle.tw_instr.specs.Content.{content_of};
ghost use Rattle.tw_types.specs.Room.{HasReadRoom, HasWriteRoom};

use crate::changes::{add_read_in, add_write_in, drop_write_in, insert_in, set_in, subscribe_in};
use crate::datum::Datum;
use crate::freeing::drop_read_within;
use std::alloc::{AllocError, Global};
use std::collections::BTreeMap;
use std::marker::Model;
use tw_datum::{Content, checks};
use tw_types::{Cause, DataType, DatumId, Scalar, Subscriber, Value, ValueRef};

/// The live data by their ids. No id is reused.
#[derive(Drop)]
pub struct Data {
    pub(crate) live: BTreeMap<u64, Datum>,
    next: u64,
}

impl Model for Data {
    ghost use Rattle.tw_types.specs.Store.{Datum as DatumMeaning, Store};
    ghost use Rattle.tw_instr.specs.Parts.{store_of};
    ghost use Rattle.std.specs.FinMap.{code};
    ghost use Rattle.std.specs.Ordering.{nat_cmp};
    ghost use Rattle.tw_types.specs.declared.value.Value.{Value as Held};
    ghost use Rattle.tw_types.specs.ValueOrder.{value_cmp};
    ghost use Rattle.std.specs.Coded.{codes, coded_ℕ};

    ghost Value = { Store };

    ghost coded = { Prim.hlevel (codes, code {X = DatumMeaning} {R = nat_cmp} coded_ℕ (Prim.hlevel (codes, code {R = value_cmp} (Prim.hlevel codes) coded_ℕ, code {X = Held} {R = value_cmp} (Prim.hlevel codes) (Prim.hlevel codes)))) };

    ghost view = { λ s. store_of s.live.entries s.next };
}

impl Data {
    /// Makes the reference machine's store without data.
    pub fn new(alloc: Global) -> Data
        ensures { result ≡ empty_store }
    {
        Data {
            live: BTreeMap::new(alloc),
            next: 1,
        }
    }

    /// Returns the id of the datum that the reference machine makes next.
    pub fn next(&self) -> DatumId
        ensures { result ≡ self.now.next }
    {
        DatumId::new(self.next)
    }

    /// Returns the datum of an id in the reference machine's store, if it is live.
    pub fn datum(&self, id: DatumId) -> Option<&Datum>
        ensures { datum_if (option_copied result) ≡ get self.now.live id }
    {
        self.live.get(&id.number())
    }

    /// Makes a datum in the reference machine's store, with the next id, one write and one read.
    pub fn create(&mut self, alloc: Global, ty: DataType) -> Result<DatumId, AllocError>
        requires { self.old.next < 2 ^ 63 }
        ensures made { OnOk result (self.new ≡ created self.old ty) }
        ensures id { IfOk result (λ id. id ≡ self.old.next) }
        ensures refused { OnErr result (self.new ≡ self.old) }
    {
        self.add(Datum::new(alloc, ty))
    }

    /// Makes a closed datum with the next id and one read: a set scalar, a container with its members, or a map with its values.
    pub fn add_closed(
        &mut self,
        alloc: Global,
        ty: DataType,
        content: Content<DatumId>,
    ) -> Result<DatumId, AllocError>
        requires fits { FitsType ty (content_of content) }
        requires room { self.old.next < 2 ^ 63 }
        ensures made { OnOk result (self.new ≡ added self.old (closed_datum ty (content_of content))) }
        ensures id { IfOk result (λ id. id ≡ self.old.next) }
        ensures refused { OnErr result (self.new ≡ self.old) }
    {
        self.add(Datum::new_closed(alloc, ty, content))
    }

    /// Adds a datum to the reference machine's store under the next id, which it returns.
    fn add(&mut self, datum: Datum) -> Result<DatumId, AllocError>
        requires { self.old.next < 2 ^ 63 }
        ensures made { OnOk result (self.new ≡ added self.old datum.datum) }
        ensures id { IfOk result (λ id. id ≡ self.old.next) }
        ensures refused { OnErr result (self.new ≡ self.old) }
    {
        let id = self.next;
        self.live.insert(id, datum)?;
        self.next = id + 1;
        Ok(DatumId::new(id))
    }

    /// Sets and closes a scalar of the reference machine's store, which spends a write. Read its subscribers before:
    /// `heard_by_set`.
    pub fn set(&mut self, id: DatumId, value: Value)
        requires { may_store value (get self.old.live id) ≡ Ok tt }
        ensures { self.new ≡ stored self.old id value }
    {
        set_in(&mut self.live, id.number(), value);
    }

    /// Returns the subscribers that get a notice when a scalar is set, in the order of asking.
    pub fn heard_by_set(&self, id: DatumId) -> &[Subscriber]
        ensures { (value : ValueMeaning) → each (notice_to id) result.now ≡ notices_of_stored self.now id value }
    {
        match self.datum(id) {
            Some(datum) => datum.subscribers(),
            None => &[],
        }
    }

    /// Takes a write of a container of the reference machine's store, which closes with the last. Read its subscribers before:
    /// `heard_by_drop_write`.
    pub fn drop_write(&mut self, id: DatumId)
        requires { may_drop_write (get self.old.live id) ≡ Ok tt }
        ensures { self.new ≡ write_dropped self.old id }
    {
        drop_write_in(&mut self.live, id.number());
    }

    /// Returns, by a datum's id, the subscribers that get a notice when a write is dropped, in the order of asking: none if the
    /// datum stays open.
    pub fn heard_by_drop_write(&self, id: DatumId) -> &[Subscriber]
        ensures { each (notice_to id) result.now ≡ notices_of_write_dropped self.now id }
    {
        match self.datum(id) {
            Some(datum) => datum.heard_by_drop_write(),
            None => &[],
        }
    }

    /// Takes a read in the reference machine's store. If it was the last right, frees the datum, and each of its members loses a
    /// read.
    pub fn drop_read(&mut self, id: DatumId)
        ensures { self.new ≡ read_dropped self.old id }
    {
        drop_read_within(&mut self.live, id.number(), DataType::MAX_DEPTH);
    }

    /// Inserts a member by its id into a container of the reference machine's store, in place of one at the subscript.
    pub fn insert(
        &mut self,
        id: DatumId,
        subscript: Value,
        member: DatumId,
    ) -> Result<(), AllocError>
        requires { may_insert (scalar_of subscript) (get self.old.live id) (get self.old.live member) ≡ Ok tt }
        ensures inserted { OnOk result (self.new ≡ inserted self.old id subscript member) }
        ensures refused { OnErr result (self.new ≡ self.old) }
    {
        insert_in(&mut self.live, id.number(), subscript, member)
    }

    /// Adds a read to a datum of the reference machine's store.
    pub fn add_read(&mut self, id: DatumId)
        requires { HasReadRoom (get self.old.live id) }
        ensures { self.new ≡ read_copied self.old id }
    {
        add_read_in(&mut self.live, id.number());
    }

    /// Adds a write to a datum of the reference machine's store.
    pub fn add_write(&mut self, id: DatumId)
        requires { HasWriteRoom (get self.old.live id) }
        ensures { self.new ≡ write_copied self.old id }
    {
        add_write_in(&mut self.live, id.number());
    }

    /// Adds a subscriber to a datum of the reference machine's store, after the others.
    pub fn subscribe(&mut self, id: DatumId, subscriber: Subscriber) -> Result<(), AllocError>
        ensures noted { OnOk result (self.new ≡ subscribed self.old id subscriber) }
        ensures refused { OnErr result (self.new ≡ self.old) }
    {
        subscribe_in(&mut self.live, id.number(), subscriber)
    }

    /// Returns the value of a set scalar of the reference machine's store.
    pub fn value(&self, id: DatumId) -> Option<&Value>
        ensures { option_copied result ≡ value_at self.now id }
    {
        self.datum(id)?.value()
    }

    /// Returns the id of a container's member at a subscript, in the reference machine's store.
    pub fn member(&self, id: DatumId, subscript: ValueRef<'_>) -> Option<DatumId>
        ensures { result ≡ member_at self.now id (named subscript.entry) }
    {
        self.datum(id)?.member_at(subscript)
    }

    /// Returns the number of a container's members, or of a map's values, in the reference machine's store.
    pub fn size(&self, id: DatumId) -> usize
        ensures { result ≡ size_at self.now id }
    {
        match self.datum(id) {
            Some(datum) => datum.count(),
            None => 0,
        }
    }

    /// Returns the subscript with exactly `index` smaller ones in a datum of the reference machine's store.
    pub fn subscript_at(&self, id: DatumId, index: i64) -> Option<&Value>
        ensures found { option_copied result ≡ subscript_after index (subscripts_at self.now id) }
        ensures kind { (by : ScalarMeaning) → may_read_subscripts_by by (get self.now.live id) ≡ Ok tt → IfSome (option_copied result) (λ subscript. scalar_of subscript ≡ by) }
    {
        match self.datum(id) {
            Some(datum) => datum.subscript(index),
            None => None,
        }
    }
}

/// The checks of the calls. Each fails with the first cause.
impl Data {
    /// Checks by its id that a value can be stored in a datum. Returns the first cause against it.
    pub fn may_store(&self, id: DatumId, value: &Value) -> Result<(), Cause>
        ensures { result ≡ may_store value.now (get self.now.live id) }
    {
        checks::may_store(self.datum(id), value)
    }

    /// Checks by its id that the value of a datum can be read.
    pub fn may_retrieve(&self, id: DatumId) -> Result<(), Cause>
        ensures { result ≡ may_retrieve (get self.now.live id) }
    {
        checks::may_retrieve(self.datum(id))
    }

    /// Checks by their ids that a member can be inserted into a container with subscripts of this type.
    pub fn may_insert(&self, by: Scalar, container: DatumId, member: DatumId) -> Result<(), Cause>
        ensures { result ≡ may_insert by (get self.now.live container) (get self.now.live member) }
    {
        checks::may_insert(by, self.datum(container), self.datum(member))
    }

    /// Checks by a container's id that the member at a subscript can be looked up, and have one more read.
    pub fn may_look(&self, id: DatumId, subscript: &Value) -> Result<(), Cause>
        ensures { result ≡ may_look self.now id subscript.now }
    {
        checks::may_read_members_by(subscript.scalar(), self.datum(id))?;
        match self.member(id, subscript.borrowed()) {
            Some(member) => checks::may_be_read(self.datum(member)),
            None => Ok(()),
        }
    }

    /// Checks by its id that the members of a datum can be read.
    pub fn may_read_members(&self, id: DatumId) -> Result<(), Cause>
        ensures { result ≡ may_read_members (get self.now.live id) }
    {
        checks::may_read_members(self.datum(id))
    }

    /// Like `may_read_members`, for the subscripts of a container or a map, if they are of this type.
    pub fn may_read_subscripts_by(&self, by: Scalar, id: DatumId) -> Result<(), Cause>
        ensures { result ≡ may_read_subscripts_by by (get self.now.live id) }
    {
        checks::may_read_subscripts_by(by, self.datum(id))
    }

    /// Checks by its id that a datum is live, so that it can have one more read.
    pub fn may_be_read(&self, id: DatumId) -> Result<(), Cause>
        ensures { result ≡ may_be_read (get self.now.live id) }
    {
        checks::may_be_read(self.datum(id))
    }

    /// Checks by its id that a datum can have one more write.
    pub fn may_copy_write(&self, id: DatumId) -> Result<(), Cause>
        ensures { result ≡ may_copy_write (get self.now.live id) }
    {
        checks::may_copy_write(self.datum(id))
    }

    /// Checks by its id that a read of a datum can be dropped.
    pub fn may_drop_read(&self, id: DatumId) -> Result<(), Cause>
        ensures { result ≡ may_drop_read (get self.now.live id) }
    {
        checks::may_drop_read(self.datum(id))
    }

    /// Checks by its id that a write of a datum can be dropped.
    pub fn may_drop_write(&self, id: DatumId) -> Result<(), Cause>
        ensures { result ≡ may_drop_write (get self.now.live id) }
    {
        checks::may_drop_write(self.datum(id))
    }
}
