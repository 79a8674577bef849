//! The values of an input that is a map.

ghost use Rattle.std.specs.Prelude.{◌≡◌, ◌&&◌, IfOk, IfSome, T, true};
ghost use Rattle.std.specs.FinMap.{is_sorted};
ghost use Rattle.std.specs.List.{list_all};
ghost use Rattle.tw_types.specs.Given.{entered, members_by};
ghost use Rattle.tw_types.specs.Value.{is_short};
ghost use Rattle.tw_types.specs.ValueOrder.{value_cmp};

use crate::ranked_map::RankedMap;
use crate::run::is_above;
use std::alloc::{AllocError, Global};
use tw_types::{AsValue, Value};

/// Copies an entry of an input's map for a datum. Its texts have to be short.
fn entry_copy<K: AsValue, V: AsValue>(
    alloc: Global,
    entry: &(K, V),
) -> Result<(Value, Value), AllocError>
    requires { (is_short (K.value entry.now.0) && is_short (V.value entry.now.1)) ≡ true }
    ensures subscript { IfOk result (λ copy. copy.0 ≡ K.value entry.now.0) }
    ensures value { IfOk result (λ copy. copy.1 ≡ V.value entry.now.1) }
{
    let (subscript, value) = entry;
    let subscript = subscript.as_value().try_to_value(alloc)?;
    let value = value.as_value().try_to_value(alloc)?;
    Ok((subscript, value))
}

/// Returns copies of the entries of an input's map, if each subscript is greater than the one before. All texts have to be short.
fn rising_copies<K: AsValue, V: AsValue>(
    alloc: Global,
    members: &[(K, V)],
) -> Result<Option<Vec<(Value, Value)>>, AllocError>
    requires { list_all (λ e. is_short e.0 && is_short e.1) (members_by K.value V.value members.now) ≡ true }
    ensures { IfOk result (λ copies. IfSome copies (λ run. (run.items ≡ members_by K.value V.value members.now) × T (is_sorted value_cmp run.items))) }
{
    let mut run = Vec::with_capacity(alloc, members.len())?;
    for member in members {
        let (subscript, value) = entry_copy(alloc, member)?;
        if !is_above(run.as_slice(), subscript.borrowed()) {
            return Ok(None);
        }
        run.push((subscript, value))?;
    }
    Ok(Some(run))
}

/// Returns the values of an input's map at their subscripts, of which the first counts. All texts have to be short.
fn entered_by_one<K: AsValue, V: AsValue>(
    alloc: Global,
    members: &[(K, V)],
) -> Result<RankedMap<Value>, AllocError>
    requires { list_all (λ e. is_short e.0 && is_short e.1) (members_by K.value V.value members.now) ≡ true }
    ensures { IfOk result (λ values. values ≡ entered (members_by K.value V.value members.now)) }
{
    let mut values = RankedMap::new(alloc);
    for index in (0..members.len()).rev() {
        let (subscript, value) = entry_copy(alloc, &members[index])?;
        values.insert(subscript, value)?;
    }
    Ok(values)
}

/// Returns the values of an input's map at their subscripts, for a datum: a list if they rise, as they do in each input. All texts have to
/// be short.
pub fn entered<K: AsValue, V: AsValue>(
    alloc: Global,
    members: &[(K, V)],
) -> Result<RankedMap<Value>, AllocError>
    requires { list_all (λ e. is_short e.0 && is_short e.1) (members_by K.value V.value members.now) ≡ true }
    ensures { IfOk result (λ values. values ≡ entered (members_by K.value V.value members.now)) }
{
    match rising_copies(alloc, members)? {
        Some(run) => Ok(RankedMap::of_rising(alloc, run)),
        None => entered_by_one(alloc, members),
    }
}
