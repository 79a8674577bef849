//! The members of a datum that is a container.

ghost use Rattle.std.specs.Prelude.{◌≡◌, IfSome, OnOk, OnErr, Some, slice_get, true, option_map};
ghost use Rattle.std.specs.FinMap as map;
ghost use Rattle.std.specs.Option.{option_and_then, option_copied};
ghost use Rattle.tw_types.specs.DataType.{is_container_by};
ghost use Rattle.tw_types.specs.StoreCalls.{members_in};
ghost use Rattle.tw_types.specs.Value.{IsProper, scalar_of};
ghost use Rattle.tw_types.specs.ValueOrder.{named};
ghost use Rattle.tw_datum.specs.Kept.{AreMembers, IsMemberAdded, bare, by_int, borrowed_entry, with_kept_member};

use crate::datum::{Content, Datum};
use crate::member::Member;
use crate::ranked_map::RankedMap;
use std::alloc::AllocError;
use tw_types::{DatumId, Value, ValueRef};

/// Returns the id of a datum's member, with its subscript.
fn borrowed_entry<M: Member>(entry: Option<&(Value, M)>) -> Option<(&Value, DatumId)>
    ensures { option_map borrowed_entry result ≡ option_map (bare M.id) (option_copied entry.entry) }
{
    match entry {
        Some((subscript, member)) => Some((subscript, member.id())),
        None => None,
    }
}

impl<M: Member> Datum<M> {
    /// Returns the map of a datum's members, or `None` for a scalar or a map of values.
    fn members(&self) -> Option<&RankedMap<M>>
        ensures { AreMembers M.id self.now (option_copied result) }
    {
        match &self.content {
            Content::Contains(members) => Some(members),
            Content::Unset | Content::Set(_) | Content::Maps(_) => None,
        }
    }

    /// Returns the number of members of a datum; a scalar or a map has none.
    pub fn len(&self) -> usize
        ensures { result ≡ map.len (members_in self.now.datum.content) }
    {
        match self.members() {
            Some(members) => members.len(),
            None => 0,
        }
    }

    /// Returns the member of a datum with `index` smaller integers as subscripts, and its subscript; `None` if subscripts are
    /// texts.
    pub fn member(&self, index: usize) -> Option<(i64, DatumId)>
        ensures { result ≡ option_and_then by_int (slice_get (map.entries (members_in self.now.datum.content)) index) }
    {
        match self.entry(index) {
            Some((Value::Int(subscript), id)) => Some((*subscript, id)),
            Some((Value::Text(_), _)) | None => None,
        }
    }

    /// Returns the member of a datum with `index` smaller subscripts, and its subscript of either type.
    pub fn entry(&self, index: usize) -> Option<(&Value, DatumId)>
        ensures { option_map borrowed_entry result ≡ slice_get (map.entries (members_in self.now.datum.content)) index }
    {
        match self.members() {
            Some(members) => borrowed_entry(members.nth(index)),
            None => None,
        }
    }

    /// Like `entry`, with the member as the container stores it.
    pub fn nth_kept(&self, index: usize) -> Option<&(Value, M)>
        ensures member { option_map (bare M.id) (option_copied result) ≡ slice_get (map.entries (members_in self.now.datum.content)) index }
        ensures kept { IfSome (option_copied result) (λ e. map.get self.now.members e.0 ≡ Some e.1) }
    {
        match self.members() {
            Some(members) => members.nth(index),
            None => None,
        }
    }

    /// Returns the member of a datum at a subscript, as the container stores it.
    pub fn kept_member(&self, subscript: ValueRef<'_>) -> Option<M>
        ensures member { option_map M.id result ≡ map.get (members_in self.now.datum.content) (named subscript.entry) }
        ensures kept { result ≡ map.get self.now.members (named subscript.entry) }
    {
        match self.members() {
            Some(members) => members.get(subscript).copied(),
            None => None,
        }
    }

    /// Returns the id of the member of a datum at a subscript.
    pub fn member_at(&self, subscript: ValueRef<'_>) -> Option<DatumId>
        ensures { result ≡ map.get (members_in self.now.datum.content) (named subscript.entry) }
    {
        match self.kept_member(subscript) {
            Some(member) => Some(member.id()),
            None => None,
        }
    }

    /// Inserts a member into a datum at a copy of the subscript, unless one is there. Returns whether none was. Fails if an
    /// allocation fails.
    pub fn add_absent(&mut self, subscript: ValueRef<'_>, member: M) -> Result<bool, AllocError>
        requires container { is_container_by (scalar_of (named subscript)) self.old.datum.ty ≡ true }
        requires proper { IsProper (named subscript) }
        ensures { IsMemberAdded M.id result (named subscript.entry) member self.old self.new }
    {
        match &mut self.content {
            Content::Contains(members) => members.add(subscript, member),
            Content::Unset | Content::Set(_) | Content::Maps(_) => unreachable!(),
        }
    }

    /// Inserts a member into a datum, in place of one at the subscript.
    pub fn add_member(&mut self, subscript: Value, member: M) -> Result<(), AllocError>
        requires { is_container_by (scalar_of subscript) self.old.datum.ty ≡ true }
        ensures added { OnOk result (self.new ≡ with_kept_member M.id subscript member self.old) }
        ensures refused { OnErr result (self.new ≡ self.old) }
    {
        match &mut self.content {
            Content::Contains(members) => members.insert(subscript, member),
            Content::Unset | Content::Set(_) | Content::Maps(_) => unreachable!(),
        }
    }
}
