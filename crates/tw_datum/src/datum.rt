//! One datum: its content, its counts and its subscribers.

ghost use Rattle.std.specs.Prelude.{◌≡◌, ◌-◌, ◌<◌, ◌^◌, IfSome, OnOk, OnErr, true, false, if◌then◌else◌, []};
ghost use Rattle.std.specs.FinMap as map;
ghost use Rattle.std.specs.Option.{option_copied};
ghost use Rattle.tw_types.specs.Store.{empty_content, is_closed, is_unheld, members_of, subscribers_cleared};
ghost use Rattle.tw_types.specs.DataType.{is_scalar};
ghost use Rattle.tw_types.specs.StoreCalls.{value_in, set_to, one_read_more, one_write_more, one_write_less, with_subscriber};
ghost use Rattle.tw_types.specs.StoreChecks.{is_unset};
ghost use Rattle.tw_datum.specs.Kept.{FitsType, closed_datum, content_of, ids_if, members_kept, new_kept};

use crate::member::Member;
use crate::ranked_map::RankedMap;
use smallvec::SmallVec;
use std::alloc::{AllocError, Global};
use std::marker::Model;
use tw_types::{DataType, Subscriber, Value};

/// The content of a datum.
#[derive(Drop)]
pub enum Content<M> {
    /// A scalar without a value.
    Unset,
    /// A scalar with its value.
    Set(Value),
    /// A container.
    Contains(RankedMap<M>),
    /// A map.
    Maps(RankedMap<Value>),
}

/// A datum, with how many rights are held on it, and its subscribers.
#[derive(Drop)]
pub struct Datum<M: Member> {
    pub(crate) ty: DataType,
    pub(crate) content: Content<M>,
    reads: u64,
    writes: u64,
    subscribers: SmallVec<Subscriber, 2>,
}

impl<M: Member> Model for Datum<M> {
    ghost use Rattle.tw_datum.specs.Kept.{KeptDatum, content_of, members_kept, FitsType};
    ghost use Rattle.std.specs.FinMap.{code};
    ghost use Rattle.std.specs.Coded.{codes, coded_ℕ};
    ghost use Rattle.tw_types.specs.declared.value.Value.{Value as Held};
    ghost use Rattle.tw_types.specs.ValueOrder.{value_cmp};

    ghost Value = { KeptDatum M };

    ghost coded = { Prim.hlevel (codes, code {X = M} {R = value_cmp} (Prim.hlevel codes) M.code, code {R = value_cmp} (Prim.hlevel codes) coded_ℕ, code {X = Held} {R = value_cmp} (Prim.hlevel codes) (Prim.hlevel codes)) };

    ghost view = { λ d. record {
      datum = record { ty = d.ty; content = content_of M.id d.content; reads = d.reads; writes = d.writes; subscribers = d.subscribers.items };
      members = members_kept d.content;
    } };

    ghost invariant = { λ d. FitsType d.ty (content_of M.id d.content) };
}

/// Returns the content of a new datum: an unset scalar, no members, or a map without values.
fn empty_content<M: Member>(alloc: Global, ty: DataType) -> Content<M>
    ensures content { content_of M.id result ≡ empty_content ty }
    ensures members { members_kept result ≡ map.empty }
{
    if ty.is_scalar() {
        Content::Unset
    } else if ty.is_map() {
        Content::Maps(RankedMap::new(alloc))
    } else {
        Content::Contains(RankedMap::new(alloc))
    }
}

impl<M: Member> Datum<M> {
    /// Makes a datum with one read and one write: an unset scalar, a container without members, or a map without values.
    pub fn new(alloc: Global, ty: DataType) -> Datum<M>
        ensures { result ≡ new_kept ty }
    {
        Datum {
            ty,
            content: empty_content(alloc, ty),
            reads: 1,
            writes: 1,
            subscribers: SmallVec::new(alloc),
        }
    }

    /// Makes a closed datum with one read: a set scalar, a container with its members, or a map with its values.
    pub fn new_closed(alloc: Global, ty: DataType, content: Content<M>) -> Datum<M>
        requires { FitsType ty (content_of M.id content) }
        ensures datum { result.datum ≡ closed_datum ty (content_of M.id content) }
        ensures members { result.members ≡ members_kept content }
    {
        Datum {
            ty,
            content,
            reads: 1,
            writes: 0,
            subscribers: SmallVec::new(alloc),
        }
    }

    /// Returns the type of a datum.
    pub fn ty(&self) -> DataType
        ensures { result ≡ self.now.datum.ty }
    {
        self.ty
    }

    /// Returns the value of a datum that is a set scalar.
    pub fn value(&self) -> Option<&Value>
        ensures { option_copied result ≡ value_in self.now.datum.content }
    {
        match &self.content {
            Content::Set(value) => Some(value),
            Content::Unset | Content::Contains(_) | Content::Maps(_) => None,
        }
    }

    /// Returns whether a datum will never change again: it is a set scalar, or a container or map without write rights.
    pub fn closed(&self) -> bool
        ensures { result ≡ is_closed self.now.datum }
    {
        match &self.content {
            Content::Unset => false,
            Content::Set(_) => true,
            Content::Contains(_) | Content::Maps(_) => self.writes == 0,
        }
    }

    /// Returns the number of read rights on a datum, those of its containers and of the host included.
    pub fn reads(&self) -> u64
        ensures { result ≡ self.now.datum.reads }
    {
        self.reads
    }

    /// Returns the number of write rights on a datum.
    pub fn writes(&self) -> u64
        ensures { result ≡ self.now.datum.writes }
    {
        self.writes
    }

    /// Returns whether a datum is a scalar without a value.
    pub fn is_unset(&self) -> bool
        ensures { result ≡ is_unset self.now.datum.content }
    {
        matches!(self.content, Content::Unset)
    }

    /// Returns whether nobody holds a right on a datum, by its counts of reads and writes.
    pub fn is_unheld(&self) -> bool
        ensures { result ≡ is_unheld self.now.datum }
    {
        self.reads == 0 && self.writes == 0
    }

    /// Returns the subscribers of a datum, in the order of asking.
    pub fn subscribers(&self) -> &[Subscriber]
        ensures { result.now ≡ self.now.datum.subscribers }
    {
        self.subscribers.as_slice()
    }

    /// Returns the subscribers that get a notice if the datum loses one write: none if it stays open.
    pub fn heard_by_drop_write(&self) -> &[Subscriber]
        ensures { result.now ≡ if is_closed (one_write_less self.now.datum) then self.now.datum.subscribers else [] }
    {
        let closes = match &self.content {
            Content::Unset => false,
            Content::Set(_) => true,
            Content::Contains(_) | Content::Maps(_) => self.writes <= 1,
        };
        if closes {
            self.subscribers.as_slice()
        } else {
            &[]
        }
    }

    /// Sets a datum that is a scalar, which spends a write and drops its subscribers. Read the subscribers before.
    pub fn set(&mut self, value: Value)
        requires scalar { is_scalar self.old.datum.ty ≡ true }
        requires write { 0 < self.old.datum.writes }
        ensures { self.new ≡ record self.old { datum = subscribers_cleared (set_to value self.old.datum) } }
    {
        self.content = Content::Set(value);
        self.writes -= 1;
        self.subscribers.clear();
    }

    /// Takes one write off a datum's count. If that closes it, drops its subscribers: read `heard_by_drop_write` before.
    pub fn take_write(&mut self)
        requires { 0 < self.old.datum.writes }
        ensures { self.new ≡ record self.old { datum = subscribers_cleared (one_write_less self.old.datum) } }
    {
        self.writes -= 1;
        if self.closed() {
            self.subscribers.clear();
        }
    }

    /// Takes one read off a datum's count.
    pub fn take_read(&mut self)
        requires { 0 < self.old.datum.reads }
        ensures { self.new ≡ record self.old { datum = record self.old.datum { reads = self.old.datum.reads - 1 } } }
    {
        self.reads -= 1;
    }

    /// Adds one read to a datum's count.
    pub fn add_read(&mut self)
        requires { self.old.datum.reads < 2 ^ 63 }
        ensures { self.new ≡ record self.old { datum = one_read_more self.old.datum } }
    {
        self.reads += 1;
    }

    /// Adds one write to a datum's count.
    pub fn add_write(&mut self)
        requires { self.old.datum.writes < 2 ^ 63 }
        ensures { self.new ≡ record self.old { datum = one_write_more self.old.datum } }
    {
        self.writes += 1;
    }

    /// Adds a subscriber to a datum, after the others.
    pub fn add_subscriber(&mut self, subscriber: Subscriber) -> Result<(), AllocError>
        ensures added { OnOk result (self.new ≡ record self.old { datum = with_subscriber subscriber self.old.datum }) }
        ensures refused { OnErr result (self.new ≡ self.old) }
    {
        self.subscribers.push(subscriber)?;
        Ok(())
    }

    /// Returns the members of a datum that is freed, if it is a container.
    pub fn into_members(self) -> Option<RankedMap<M>>
        ensures ids { ids_if M.id result ≡ members_of self.datum.content }
        ensures kept { IfSome result (λ members. members ≡ self.members) }
    {
        let Datum {
            ty: _,
            content,
            reads: _,
            writes: _,
            subscribers: _,
        } = self;
        match content {
            Content::Contains(members) => Some(members),
            Content::Unset | Content::Set(_) | Content::Maps(_) => None,
        }
    }
}
