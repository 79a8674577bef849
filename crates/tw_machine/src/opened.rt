//! The data of main's parameters.

ghost use Rattle.std.specs.Prelude.{◌≡◌, ◌+◌, ◌<◌, ◌≤◌, ◌^◌, length, IfOk, OnOk, true, Some};
ghost use Rattle.tw_types.specs.DataType.{has_sums};
ghost use Rattle.tw_types.specs.Given.{Container, Entries, given_as, members_by};
ghost use Rattle.tw_types.specs.Store.{added};
ghost use Rattle.tw_types.specs.Value.{is_short};
ghost use Rattle.tw_code.specs.machine.Inputs.{are_inputs_of, input_params, is_given_for, is_input_of};
ghost use Rattle.tw_code.specs.machine.Members.{are_short, with_members};
ghost use Rattle.tw_code.specs.machine.Opening.{added_given, closed_map, closed_scalar, nothing_opened, numbered, opened, with_container, with_given, with_input, with_output};

use std::alloc::{AllocError, Global};
use std::marker::Model;
use tw_datum::entered;
use tw_instr::{Content, Data, RankedMap};
use tw_types::{AsValue, DataType, DatumId, Input, Param};

/// The data of main's parameters so far, the ids of main's arguments, and the ids of the host's outputs.
#[derive(Drop)]
pub struct Opened {
    pub store: Data,
    pub rights: Vec<DatumId>,
    pub outputs: Vec<DatumId>,
}

impl Model for Opened {
    ghost use Rattle.tw_types.specs.Store.{Datum as DatumMeaning};
    ghost use Rattle.tw_code.specs.machine.Opening.{Opened as Meaning};
    ghost use Rattle.std.specs.FinMap.{code};
    ghost use Rattle.std.specs.Ordering.{nat_cmp};
    ghost use Rattle.tw_types.specs.declared.value.Value.{Value as ValueMeaning};
    ghost use Rattle.tw_types.specs.ValueOrder.{value_cmp};
    ghost use Rattle.std.specs.Coded.{codes, coded_ℕ, coded_ℤ};

    ghost Value = { Meaning };

    ghost coded = { Prim.hlevel (codes, code {X = DatumMeaning} {R = nat_cmp} coded_ℕ (Prim.hlevel (codes, code {R = value_cmp} (Prim.hlevel codes) coded_ℕ, code {X = ValueMeaning} {R = value_cmp} (Prim.hlevel codes) (Prim.hlevel codes)))) };

    ghost view = { λ o. record { store = o.store; rights = o.rights.items; outputs = o.outputs.items } };
}

impl Opened {
    /// Returns the reference machine's data before the first parameter of main.
    pub fn new(alloc: Global) -> Opened
        ensures { result ≡ nothing_opened }
    {
        Opened {
            store: Data::new(alloc),
            rights: Vec::new(alloc),
            outputs: Vec::new(alloc),
        }
    }

    /// Makes the reference machine's data of main's parameters, with the inputs for those that take one.
    pub fn of(alloc: Global, params: &[Param], inputs: &[Input]) -> Result<Opened, AllocError>
        requires fit { are_inputs_of (input_params params.now) inputs.now ≡ true }
        requires few { length params.now ≤ 8 }
        ensures opened { IfOk result (λ o. o ≡ opened nothing_opened params.now inputs.now) }
        ensures few { IfOk result (λ o. length o.rights ≤ 8) }
    {
        let mut opened = Opened::new(alloc);
        let mut rest = inputs;
        for param in params {
            if param.mode.is_write() {
                opened.add_output(alloc, param.ty)?;
            } else if let Some((input, others)) = rest.split_first() {
                opened.add_input(alloc, param.ty, input)?;
                rest = others;
            }
        }
        Ok(opened)
    }

    /// Makes the datum of an output in the reference machine: main gets the write right, and the host the read right.
    pub fn add_output(&mut self, alloc: Global, ty: DataType) -> Result<(), AllocError>
        requires { self.old.store.next < 2 ^ 63 }
        ensures { OnOk result (self.new ≡ with_output self.old ty) }
    {
        let id = self.store.create(alloc, ty)?;
        self.rights.push(id)?;
        self.outputs.push(id)?;
        Ok(())
    }

    /// Makes the data of an input in the reference machine: main gets the read right.
    pub fn add_input(
        &mut self,
        alloc: Global,
        ty: DataType,
        input: &Input,
    ) -> Result<(), AllocError>
        requires fits { is_input_of ty input.now ≡ true }
        requires room { self.old.store.next + 1001 < 2 ^ 63 }
        ensures { OnOk result (self.new ≡ with_given self.old ty (Some input.now)) }
    {
        self.rights.push(self.store.next())?;
        add_input(alloc, &mut self.store, ty, input)
    }
}

/// Adds the datum of an input to the reference machine's store, and then those of its members, if it is a container.
fn add_input(alloc: Global, store: &mut Data, ty: DataType, input: &Input) -> Result<(), AllocError>
    requires fits { is_input_of ty input.now ≡ true }
    requires room { store.old.next + 1001 < 2 ^ 63 }
    ensures { OnOk result (store.new ≡ with_input store.old ty input.now) }
{
    match input {
        Input::Int(number) => add_scalar(alloc, store, number),
        Input::Text(text) => add_scalar(alloc, store, text),
        Input::Ints(members) => add_members(alloc, store, ty, members.as_slice()),
        Input::Texts(members) => add_members(alloc, store, ty, members.as_slice()),
        Input::IntsByText(members) => add_members(alloc, store, ty, members.as_slice()),
        Input::TextsByText(members) => add_members(alloc, store, ty, members.as_slice()),
    }
}

/// Adds a closed scalar of an input to the reference machine's store.
fn add_scalar<V: AsValue>(alloc: Global, store: &mut Data, value: &V) -> Result<(), AllocError>
    requires short { is_short (V.value value.now) ≡ true }
    requires room { store.old.next < 2 ^ 63 }
    ensures { OnOk result (store.new ≡ added store.old (closed_scalar (V.value value.now))) }
{
    let value = value.as_value().try_to_value(alloc)?;
    let ty = DataType::from(value.scalar());
    store.add_closed(alloc, ty, Content::Set(value))?;
    Ok(())
}

/// Adds a closed map, or a closed container and then its members, as the type says.
fn add_members<K: AsValue, V: AsValue>(
    alloc: Global,
    store: &mut Data,
    ty: DataType,
    members: &[(K, V)],
) -> Result<(), AllocError>
    requires fits { is_given_for ty (given_as ty (Container K.scalar V.scalar (members_by K.value V.value members.now))) ≡ true }
    requires room { store.old.next + 1001 < 2 ^ 63 }
    ensures { OnOk result (store.new ≡ added_given store.old (given_as ty (Container K.scalar V.scalar (members_by K.value V.value members.now)))) }
{
    if ty.is_map() {
        add_map(alloc, store, ty, members)
    } else {
        add_container(alloc, store, ty, members)
    }
}

/// Adds a closed map of an input to the reference machine's store.
fn add_map<K: AsValue, V: AsValue>(
    alloc: Global,
    store: &mut Data,
    ty: DataType,
    members: &[(K, V)],
) -> Result<(), AllocError>
    requires fits { is_given_for ty (Entries (has_sums ty.map) K.scalar V.scalar (members_by K.value V.value members.now)) ≡ true }
    requires room { store.old.next < 2 ^ 63 }
    ensures { OnOk result (store.new ≡ added store.old (closed_map (has_sums ty.map) K.scalar V.scalar (members_by K.value V.value members.now))) }
{
    let values = entered(alloc, members)?;
    store.add_closed(alloc, ty, Content::Maps(values))?;
    Ok(())
}

/// Adds a closed container of an input to the reference machine's store, and then its members.
fn add_container<K: AsValue, V: AsValue>(
    alloc: Global,
    store: &mut Data,
    ty: DataType,
    members: &[(K, V)],
) -> Result<(), AllocError>
    requires fits { is_given_for ty (Container K.scalar V.scalar (members_by K.value V.value members.now)) ≡ true }
    requires room { store.old.next + 1001 < 2 ^ 63 }
    ensures { OnOk result (store.new ≡ with_container store.old K.scalar V.scalar (members_by K.value V.value members.now)) }
{
    let first = store.next().number() + 1;
    let numbers = numbered(alloc, first, members)?;
    store.add_closed(alloc, ty, Content::Contains(numbers))?;
    add_values(alloc, store, members)
}

/// Returns the ids of an input's members by their subscripts: `first` and those after it, in order.
fn numbered<K: AsValue, V: AsValue>(
    alloc: Global,
    first: u64,
    members: &[(K, V)],
) -> Result<RankedMap<DatumId>, AllocError>
    requires short { are_short (members_by K.value V.value members.now) ≡ true }
    requires room { first + length members.now < 2 ^ 64 }
    ensures { IfOk result (λ numbers. numbers ≡ numbered first (members_by K.value V.value members.now)) }
{
    let mut numbers = RankedMap::new(alloc);
    for index in (0..members.len()).rev() {
        let (subscript, _) = &members[index];
        let subscript = subscript.as_value().try_to_value(alloc)?;
        numbers.insert(subscript, DatumId::new(first + index as u64))?;
    }
    Ok(numbers)
}

/// Adds a closed scalar to the reference machine's store for each member of an input.
fn add_values<K: AsValue, V: AsValue>(
    alloc: Global,
    store: &mut Data,
    members: &[(K, V)],
) -> Result<(), AllocError>
    requires short { are_short (members_by K.value V.value members.now) ≡ true }
    requires room { store.old.next + length members.now < 2 ^ 63 }
    ensures { OnOk result (store.new ≡ with_members store.old (members_by K.value V.value members.now)) }
{
    for (_, value) in members {
        add_scalar(alloc, store, value)?;
    }
    Ok(())
}
