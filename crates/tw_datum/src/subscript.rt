//! The subscripts of a datum that is a container or a map.

ghost use Rattle.std.specs.Prelude.{◌≡◌, slice_get, option_map};
ghost use Rattle.std.specs.Option.{option_copied};
ghost use Rattle.tw_types.specs.StoreCalls.{subscript_after, subscripts_of};
ghost use Rattle.tw_datum.specs.Kept.{FitsType};

use crate::datum::{Content, Datum};
use crate::member::Member;
use tw_types::Value;

/// Returns the subscript of an entry of a datum, a member or a value.
fn subscript_of<V>(entry: Option<&(Value, V)>) -> Option<&Value>
    ensures { option_copied result ≡ option_map (λ e. e.0) (option_copied entry.entry) }
{
    match entry {
        Some((subscript, _)) => Some(subscript),
        None => None,
    }
}

impl<M: Member> Datum<M> {
    /// Returns the subscript of a datum's entry with exactly `index` smaller ones, if there is one.
    pub fn subscript(&self, index: i64) -> Option<&Value>
        ensures found { option_copied result ≡ subscript_after index (subscripts_of self.now.datum.content) }
        ensures fits { FitsType self.now.datum.ty self.now.datum.content }
    {
        let _ty = &self.ty;
        self.subscript_after(index)
    }

    /// Returns the subscript of a datum's entry with so many smaller ones, by an integer that may be negative.
    fn subscript_after(&self, index: i64) -> Option<&Value>
        ensures { option_copied result ≡ subscript_after index (subscripts_of self.now.datum.content) }
    {
        match usize::try_from(index) {
            Ok(index) => self.nth_subscript(index),
            Err(_) => None,
        }
    }

    /// Returns the subscript of a datum's entry with `index` smaller ones.
    pub fn nth_subscript(&self, index: usize) -> Option<&Value>
        ensures { option_copied result ≡ slice_get (subscripts_of self.now.datum.content) index }
    {
        match &self.content {
            Content::Contains(members) => subscript_of(members.nth(index)),
            Content::Maps(values) => subscript_of(values.nth(index)),
            Content::Unset | Content::Set(_) => None,
        }
    }
}
