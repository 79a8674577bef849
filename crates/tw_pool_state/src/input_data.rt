//! The data of an input.

ghost use Rattle.std.specs.Prelude.{◌≡◌, ◌<◌, ◌+◌, ◌^◌, IfOk, IsErr, None, OnOk, Some, true};
ghost use Rattle.std.specs.FinMap.{get};
ghost use Rattle.std.specs.declared.result.Result.TheVariants.{Ok};
ghost use Rattle.tw_types.specs.DataType.{has_sums};
ghost use Rattle.tw_types.specs.Given.{Container, Entries, given_as, members_by};
ghost use Rattle.tw_types.specs.Store.{added};
ghost use Rattle.tw_types.specs.StoreCalls.{member_at};
ghost use Rattle.tw_types.specs.StoreChecks.{may_insert};
ghost use Rattle.tw_types.specs.Value.{is_short, scalar_of};
ghost use Rattle.tw_store.specs.Served.{IsHere};
ghost use Rattle.tw_code.specs.machine.Inputs.{is_given_for, is_input_of};
ghost use Rattle.tw_code.specs.machine.Opening.{added_given, closed_map, closed_scalar, with_container, with_input};
ghost use Rattle.tw_pool_state.specs.Givens.{AreAllLive, HasMember};
ghost use Rattle.tw_pool_state.specs.Opening.{IsAdded};

use std::alloc::{AllocError, Global};
use tw_datum::entered;
use tw_rights::{ReadRight, WriteRight};
use tw_store::{Inserted, Store};
use tw_types::{AsValue, DataType, Input, Value};

/// Adds the data of an input to the pool's store: a closed datum, and then those of its members, if it is a container. Returns a
/// right on the first.
pub(crate) fn add_input(
    alloc: Global,
    store: &mut Store,
    ty: DataType,
    input: &Input,
) -> Result<ReadRight, AllocError>
    requires fits { is_input_of ty input.now ≡ true }
    requires room { store.old.store.next + 1001 < 2 ^ 63 }
    requires live { AreAllLive store.old }
    ensures added { IfOk result (λ right. IsAdded (with_input store.old.store ty input.now) store.old store.new right) }
    ensures live { OnOk result (AreAllLive store.new) }
{
    match input {
        Input::Int(number) => add_value(alloc, store, number),
        Input::Text(text) => add_value(alloc, store, text),
        Input::Ints(members) => add_members(alloc, store, ty, members.as_slice()),
        Input::Texts(members) => add_members(alloc, store, ty, members.as_slice()),
        Input::IntsByText(members) => add_members(alloc, store, ty, members.as_slice()),
        Input::TextsByText(members) => add_members(alloc, store, ty, members.as_slice()),
    }
}

/// Adds a closed scalar of an input to the pool's store.
fn add_scalar(alloc: Global, store: &mut Store, value: Value) -> Result<ReadRight, AllocError>
    requires room { store.old.store.next < 2 ^ 63 }
    requires live { AreAllLive store.old }
    ensures added { IfOk result (λ right. IsAdded (added store.old.store (closed_scalar value)) store.old store.new right) }
    ensures live { OnOk result (AreAllLive store.new) }
{
    let (write, read) = store.create(alloc, DataType::from(value.scalar()))?;
    match store.store(write, value) {
        Ok(()) => Ok(read),
        Err((_write, _value)) => unreachable!(),
    }
}

/// Adds a closed scalar with a copy of an input's value to the pool's store.
fn add_value<V: AsValue>(
    alloc: Global,
    store: &mut Store,
    value: &V,
) -> Result<ReadRight, AllocError>
    requires short { is_short (V.value value.now) ≡ true }
    requires room { store.old.store.next < 2 ^ 63 }
    requires live { AreAllLive store.old }
    ensures added { IfOk result (λ right. IsAdded (added store.old.store (closed_scalar (V.value value.now))) store.old store.new right) }
    ensures live { OnOk result (AreAllLive store.new) }
{
    let own = value.as_value().try_to_value(alloc)?;
    add_scalar(alloc, store, own)
}

/// Adds a closed scalar to the pool's store, and inserts it into an input's open container.
fn add_member<K: AsValue, V: AsValue>(
    alloc: Global,
    store: &mut Store,
    container: &WriteRight,
    subscript: &K,
    value: &V,
) -> Result<(), AllocError>
    requires room { store.old.store.next < 2 ^ 63 }
    requires live { AreAllLive store.old }
    requires here { IsHere store.old container.now }
    requires before { container.now.id < store.old.store.next }
    requires short { is_short (K.value subscript.now) ≡ true }
    requires short_value { is_short (V.value value.now) ≡ true }
    requires element { may_insert (scalar_of (K.value subscript.now)) (get store.old.store.live container.now.id) (Some (closed_scalar (V.value value.now))) ≡ Ok tt }
    requires absent { member_at store.old.store container.now.id (K.value subscript.now) ≡ None }
    ensures { OnOk result (HasMember container.now.id (K.value subscript.now) (V.value value.now) store.old store.new) }
{
    let member = add_value(alloc, store, value)?;
    match store.insert_under(alloc, container, subscript.as_value(), member) {
        Ok(Inserted::Done) => Ok(()),
        Ok(Inserted::Present(_member)) => unreachable!(),
        Err(member) => {
            let _id = member.spend();
            Err(AllocError)
        }
    }
}

/// Adds an input's map, or container with its members, to the pool's store, as the type says; it is closed.
fn add_members<K: AsValue, V: AsValue>(
    alloc: Global,
    store: &mut Store,
    ty: DataType,
    members: &[(K, V)],
) -> Result<ReadRight, AllocError>
    requires fits { is_given_for ty (given_as ty (Container K.scalar V.scalar (members_by K.value V.value members.now))) ≡ true }
    requires room { store.old.store.next + 1001 < 2 ^ 63 }
    requires live { AreAllLive store.old }
    ensures added { IfOk result (λ right. IsAdded (added_given store.old.store (given_as ty (Container K.scalar V.scalar (members_by K.value V.value members.now)))) store.old store.new right) }
    ensures live { OnOk result (AreAllLive store.new) }
{
    if ty.is_map() {
        add_map(alloc, store, ty, members)
    } else {
        add_container(alloc, store, ty, members)
    }
}

/// Adds a closed map of an input to the pool's store.
fn add_map<K: AsValue, V: AsValue>(
    alloc: Global,
    store: &mut Store,
    ty: DataType,
    members: &[(K, V)],
) -> Result<ReadRight, AllocError>
    requires fits { is_given_for ty (Entries (has_sums ty.map) K.scalar V.scalar (members_by K.value V.value members.now)) ≡ true }
    requires room { store.old.store.next + 1001 < 2 ^ 63 }
    requires live { AreAllLive store.old }
    ensures added { IfOk result (λ right. IsAdded (added store.old.store (closed_map (has_sums ty.map) K.scalar V.scalar (members_by K.value V.value members.now))) store.old store.new right) }
    ensures live { OnOk result (AreAllLive store.new) }
{
    let values = entered(alloc, members)?;
    store.create_map(alloc, ty, values)
}

/// Adds an input's container and its members to the pool's store, and closes it.
fn add_container<K: AsValue, V: AsValue>(
    alloc: Global,
    store: &mut Store,
    ty: DataType,
    members: &[(K, V)],
) -> Result<ReadRight, AllocError>
    requires fits { is_given_for ty (Container K.scalar V.scalar (members_by K.value V.value members.now)) ≡ true }
    requires room { store.old.store.next + 1001 < 2 ^ 63 }
    requires live { AreAllLive store.old }
    ensures added { IfOk result (λ right. IsAdded (with_container store.old.store K.scalar V.scalar (members_by K.value V.value members.now)) store.old store.new right) }
    ensures live { OnOk result (AreAllLive store.new) }
{
    let (write, read) = store.create(alloc, ty)?;
    for (subscript, value) in members {
        let Ok(()) = add_member(alloc, store, &write, subscript, value) else {
            return spend_both(write, read);
        };
    }
    match store.drop_write(write) {
        Ok(()) => Ok(read),
        Err(_write) => unreachable!(),
    }
}

/// Spends the rights on an input's container and on a member, after a failed allocation.
fn spend_both(write: WriteRight, read: ReadRight) -> Result<ReadRight, AllocError>
    ensures { IsErr result }
{
    let _id = write.spend();
    let _same = read.spend();
    Err(AllocError)
}
