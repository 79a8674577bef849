//! Reads the members of a container from an object.

ghost use Rattle.std.specs.Prelude.{◌≡◌, None, Some, IfOk, MatchOption, map};
ghost use Rattle.std.specs.List.{Contains};
ghost use Rattle.std.specs.List.Sorted.{IsPermutation, IsSortedByKey};
ghost use Rattle.json.specs.Value.{members_view, value_view};
ghost use Rattle.tw_inputs.specs.JsonInputs.{AreMembers, NoMembers, entry_of, member_in};

use crate::parts::Part;
use json::Value as Json;
use std::alloc::{AllocError, Global};

/// Returns the member that a key and a value are, if they are one.
fn member<K: Part, V: Part>(
    alloc: Global,
    key: &str,
    value: &Json<'_>,
) -> Result<Option<(K, V)>, AllocError>
    ensures { IfOk result (λ member. member ≡ member_in K.of_key V.of_value (key.now, value_view value.now)) }
{
    let Some(subscript) = K::from_key(alloc, key)? else {
        return Ok(None);
    };
    match V::from_value(alloc, value)? {
        Some(value) => Ok(Some((subscript, value))),
        None => Ok(None),
    }
}

/// Returns the members in the order of the object, or none if one of them is no member of such a container.
fn unordered<K: Part, V: Part>(
    alloc: Global,
    object: &[(&str, Json<'_>)],
) -> Result<Option<Vec<(K, V)>>, AllocError>
    ensures { IfOk result (λ read. MatchOption read
        (Contains (map (λ m. member_in K.of_key V.of_value (entry_of m)) object.now) None)
        (λ members. map Some members.items ≡ map (λ m. member_in K.of_key V.of_value (entry_of m)) object.now)) }
{
    let mut members = Vec::new(alloc);
    for (key, value) in object {
        match member(alloc, key, value)? {
            Some(member) => members.push(member)?,
            None => return Ok(None),
        }
    }
    Ok(Some(members))
}

/// Orders members by their subscripts.
fn ordered<K: Part, V: Part>(mut members: Vec<(K, V)>) -> Vec<(K, V)>
    ensures permutation { IsPermutation members.items result.items }
    ensures sorted { IsSortedByKey (λ (member : K × V). member.0) K.order result.items }
{
    members.sort_unstable_by(|a, b| a.0.compare(&b.0));
    members
}

/// Returns the members of an object by their subscripts, or none if one of them is no member of such a container.
pub fn members<K: Part, V: Part>(
    alloc: Global,
    object: &[(&str, Json<'_>)],
) -> Result<Option<Vec<(K, V)>>, AllocError>
    ensures { IfOk result (λ read. MatchOption read
        (NoMembers K.of_key V.of_value (members_view object.now))
        (λ members. AreMembers K.order K.of_key V.of_value (members_view object.now) members.items)) }
{
    match unordered(alloc, object)? {
        Some(members) => Ok(Some(ordered(members))),
        None => Ok(None),
    }
}
