//! The calls that change one datum, on the live data.

ghost use Rattle.std.specs.Prelude.{◌≡◌, OnOk, OnErr};
ghost use Rattle.std.specs.FinMap.{get};
ghost use Rattle.std.specs.declared.result.Result.TheVariants.{Ok};
ghost use Rattle.tw_types.specs.Store.{Store};
ghost use Rattle.tw_types.specs.StoreCalls.{changed, store_after, set_to, one_read_more, one_write_more, one_write_less, with_entry, with_member, with_subscriber};
ghost use Rattle.tw_types.specs.StoreChecks.{may_store, may_insert, may_drop_write};
ghost use Rattle.tw_types.specs.Value.{scalar_of};
ghost use Rattle.tw_datum.specs.Puts.{TakesValue};
ghost use Rattle.tw_instr.specs.Parts.{data_of};
ghost use Rattle.tw_types.specs.Room.{HasReadRoom, HasWriteRoom};

use crate::datum::Datum;
use crate::freeing::free_unheld;
use std::alloc::AllocError;
use std::collections::BTreeMap;
use tw_types::{DatumId, Subscriber, Value};

/// Sets a scalar among the live data, which closes it, and frees it if nobody holds it.
pub fn set_in(live: &mut BTreeMap<u64, Datum>, id: u64, value: Value)
    requires { may_store value (get (data_of live.old.entries) id) ≡ Ok tt }
    ensures { (s : Store) → s.live ≡ data_of live.old.entries → record s { live = data_of live.new.entries } ≡ store_after s id (set_to value) }
{
    let Some(datum) = live.get_mut(&id) else {
        unreachable!();
    };
    datum.set(value);
    free_unheld(live, id);
}

/// Takes one write of a container among the live data. The last one closes it.
pub fn drop_write_in(live: &mut BTreeMap<u64, Datum>, id: u64)
    requires { may_drop_write (get (data_of live.old.entries) id) ≡ Ok tt }
    ensures { (s : Store) → s.live ≡ data_of live.old.entries → record s { live = data_of live.new.entries } ≡ store_after s id one_write_less }
{
    let Some(datum) = live.get_mut(&id) else {
        unreachable!();
    };
    datum.take_write();
    free_unheld(live, id);
}

/// Inserts a member into a container among the live data.
pub fn insert_in(
    live: &mut BTreeMap<u64, Datum>,
    id: u64,
    subscript: Value,
    member: DatumId,
) -> Result<(), AllocError>
    requires { may_insert (scalar_of subscript) (get (data_of live.old.entries) id) (get (data_of live.old.entries) member) ≡ Ok tt }
    ensures inserted { OnOk result ((s : Store) → s.live ≡ data_of live.old.entries → record s { live = data_of live.new.entries } ≡ changed s id (with_member subscript member)) }
    ensures refused { OnErr result (data_of live.new.entries ≡ data_of live.old.entries) }
{
    let Some(datum) = live.get_mut(&id) else {
        unreachable!();
    };
    datum.add_member(subscript, member)
}

/// Puts a value into a map among the live data.
pub fn put_in(
    live: &mut BTreeMap<u64, Datum>,
    id: u64,
    subscript: Value,
    value: Value,
) -> Result<(), AllocError>
    requires { TakesValue subscript value (get (data_of live.old.entries) id) }
    ensures put { OnOk result ((s : Store) → s.live ≡ data_of live.old.entries → record s { live = data_of live.new.entries } ≡ changed s id (with_entry subscript value)) }
    ensures refused { OnErr result (data_of live.new.entries ≡ data_of live.old.entries) }
{
    let Some(datum) = live.get_mut(&id) else {
        unreachable!();
    };
    datum.put_value(subscript, value)
}

/// Adds a read to a datum among the live data.
pub fn add_read_in(live: &mut BTreeMap<u64, Datum>, id: u64)
    requires { HasReadRoom (get (data_of live.old.entries) id) }
    ensures { (s : Store) → s.live ≡ data_of live.old.entries → record s { live = data_of live.new.entries } ≡ changed s id one_read_more }
{
    let Some(datum) = live.get_mut(&id) else {
        return;
    };
    datum.add_read();
}

/// Adds a write to a datum among the live data.
pub fn add_write_in(live: &mut BTreeMap<u64, Datum>, id: u64)
    requires { HasWriteRoom (get (data_of live.old.entries) id) }
    ensures { (s : Store) → s.live ≡ data_of live.old.entries → record s { live = data_of live.new.entries } ≡ changed s id one_write_more }
{
    let Some(datum) = live.get_mut(&id) else {
        return;
    };
    datum.add_write();
}

/// Adds a subscriber to a datum among the live data.
pub fn subscribe_in(
    live: &mut BTreeMap<u64, Datum>,
    id: u64,
    subscriber: Subscriber,
) -> Result<(), AllocError>
    ensures noted { OnOk result ((s : Store) → s.live ≡ data_of live.old.entries → record s { live = data_of live.new.entries } ≡ changed s id (with_subscriber subscriber)) }
    ensures refused { OnErr result (data_of live.new.entries ≡ data_of live.old.entries) }
{
    let Some(datum) = live.get_mut(&id) else {
        return Ok(());
    };
    datum.add_subscriber(subscriber)
}
