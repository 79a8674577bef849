//! How much a store holds.

ghost use Rattle.std.specs.Prelude.{◌≡◌, option_map};
ghost use Rattle.std.specs.Option.{option_copied};
ghost use Rattle.tw_store.specs.Amounts.{amounts_in as amounts_in_is, byte_count, capped, text_bytes_if};
ghost use Rattle.tw_store.specs.Slots.{AreApart, live_of};

use crate::member::Datum;
use crate::slot::Slot;
use slab::Slab;
use tw_types::Value;

/// Sums over the live data; 2 ^ 64 - 1 for a larger one.
#[derive(Clone, Copy)]
pub struct Amounts {
    /// Members of containers, and values of maps.
    pub members: u64,
    /// Bytes of texts: values and subscripts.
    pub bytes: u64,
}

/// Returns how many bytes a value or a subscript in the store has, if it is a text.
fn text_bytes(value: Option<&Value>) -> u64
    ensures { result ≡ text_bytes_if (option_copied value.entry) }
{
    match value {
        Some(Value::Text(text)) => text.as_str().len() as u64,
        Some(Value::Int(_)) | None => 0,
    }
}

/// Returns how many bytes the value at a map's subscript has, if it is a text.
fn value_bytes(entry: Option<&(Value, Value)>) -> u64
    ensures { result ≡ text_bytes_if (option_map (λ e. e.1) (option_copied entry.entry)) }
{
    match entry {
        Some((_, value)) => text_bytes(Some(value)),
        None => 0,
    }
}

/// Returns how many bytes the texts of a datum have.
fn datum_bytes(datum: &Datum) -> u64
    ensures { result ≡ capped (byte_count datum.now.datum) }
{
    let mut bytes = text_bytes(datum.value());
    for index in 0..datum.count() {
        let subscript = text_bytes(datum.nth_subscript(index));
        let value = value_bytes(datum.nth_value(index));
        bytes = bytes.saturating_add(subscript.saturating_add(value));
    }
    bytes
}

/// Sums up the data in the store's slots: their members and bytes of texts.
pub fn amounts_in(slab: &Slab<Slot>) -> Amounts
    requires { AreApart slab.now.slots }
    ensures { result ≡ amounts_in_is (live_of slab.now.slots) }
{
    let mut amounts = Amounts {
        members: 0,
        bytes: 0,
    };
    for (_, slot) in slab.iter() {
        amounts.members = amounts.members.saturating_add(slot.datum.count() as u64);
        amounts.bytes = amounts.bytes.saturating_add(datum_bytes(&slot.datum));
    }
    amounts
}
