//! Reads the members of a container, with commas between them.

ghost use Rattle.std.specs.Prelude.{List, IfOk, IsUtf8, MatchOption};
ghost use Rattle.tw_inputs.specs.InputWords.{EncodesMember, EncodesMembers};
ghost use Rattle.tw_inputs.specs.Lists.{HasNoFirst, IsFirst};

use crate::parts::Part;
use std::alloc::{AllocError, Global};
use tw_lexer::after;

/// Returns the first member, and the rest. Returns none if the bytes don't begin with a member.
fn first_member<S: Part, V: Part>(
    alloc: Global,
    bytes: &[u8],
) -> Result<Option<((S, V), &[u8])>, AllocError>
    requires { IsUtf8 bytes.now }
    ensures { IfOk result (λ read. MatchOption read
        (HasNoFirst 44 (EncodesMember S.Spells V.Spells) bytes.now)
        (λ found. IsFirst 44 (EncodesMember S.Spells V.Spells) bytes.now found.0 found.1.now)) }
{
    let Some((subscript, rest)) = S::first(alloc, b'=', bytes)? else {
        return Ok(None);
    };
    let Some(following) = after(b"=", rest) else {
        return Ok(None);
    };
    let Some((value, rest)) = V::first(alloc, b',', following)? else {
        return Ok(None);
    };
    Ok(Some(((subscript, value), rest)))
}

/// Returns the members that a list encodes, if it encodes some. An empty list has no members.
pub fn members<S: Part, V: Part>(
    alloc: Global,
    list: &[u8],
) -> Result<Option<Vec<(S, V)>>, AllocError>
    requires { IsUtf8 list.now }
    ensures { IfOk result (λ read. MatchOption read
        ((members : List (S × V)) → EncodesMembers S.Spells V.Spells members list.now → ⊥)
        (λ members. EncodesMembers S.Spells V.Spells members.items list.now)) }
{
    let mut members = Vec::new(alloc);
    if list.is_empty() {
        return Ok(Some(members));
    }
    let mut rest = list;
    loop {
        let Some((member, following)) = first_member(alloc, rest)? else {
            return Ok(None);
        };
        members.push(member)?;
        if following.is_empty() {
            return Ok(Some(members));
        }
        match after(b",", following) {
            Some(others) => rest = others,
            None => return Ok(None),
        }
    }
}
