//! Results of instructions.

ghost use Rattle.std.specs.Prelude.{◌≡◌, ◌*ℤ◌, ◌<ℤ◌, ◌<◌, IfOk, IfSome, int_div, pos};
ghost use Rattle.std.specs.Option.{option_copied, option_map};
ghost use Rattle.tw_code.specs.declared.instr.Arithmetic.TheVariants.{ShiftLeft, ShiftRight};
ghost use Rattle.std.specs.Fmt.{signed_decimal};
ghost use Rattle.tw_types.specs.ValueOrder.{int_of};
ghost use Rattle.tw_code.specs.machine.Data.{sum_with};
ghost use Rattle.tw_code.specs.machine.Local.{in_64, int_shown_as, is_before, joined, result_of, scaled, shifted};

use crate::instr::Arithmetic;
use std::alloc::{AllocError, Global};
use tw_types::{Text, Value};

/// Returns how many places a shift is by, if they are from 0 to 63.
fn places_of(right: i64) -> Option<u32>
    ensures is { option_map pos result ≡ shifted right pos }
    ensures few { IfSome result (λ places. places < 64) }
{
    match u32::try_from(right) {
        Ok(places) if places < 64 => Some(places),
        _ => None,
    }
}

/// Returns the bits that many places up, for SHL.
fn shifted_left(left: i64, right: i64) -> Option<i64>
    ensures { result ≡ result_of ShiftLeft left right }
{
    match places_of(right) {
        Some(places) => Some(left << places),
        None => None,
    }
}

/// Returns the bits that many places down, for SHR.
fn shifted_right(left: i64, right: i64) -> Option<i64>
    ensures { result ≡ result_of ShiftRight left right }
{
    match places_of(right) {
        Some(places) => Some((left.cast_unsigned() >> places).cast_signed()),
        None => None,
    }
}

/// Returns the result, or `None` if it doesn't fit 64 bits, or there is no division or shift by `right`.
#[tactic(auto, using(crate::proofs::Computing::is_in_64, crate::proofs::Computing::is_quotient, crate::proofs::Computing::is_remainder, std::proofs::lemmas::Int::wraps))]
pub fn result_of(operation: Arithmetic, left: i64, right: i64) -> Option<i64>
    ensures { result ≡ result_of operation left right }
{
    match operation {
        Arithmetic::Add => left.checked_add(right),
        Arithmetic::Subtract => left.checked_sub(right),
        Arithmetic::Multiply => left.checked_mul(right),
        Arithmetic::Divide => left.checked_div(right),
        Arithmetic::Remainder => left.checked_rem(right),
        Arithmetic::And => Some(left & right),
        Arithmetic::Or => Some(left | right),
        Arithmetic::Xor => Some(left ^ right),
        Arithmetic::ShiftLeft => shifted_left(left, right),
        Arithmetic::ShiftRight => shifted_right(left, right),
        Arithmetic::WrappingMultiply => Some(left.wrapping_mul(right)),
        Arithmetic::WrappingAdd => Some(left.wrapping_add(right)),
    }
}

/// Returns a quotient by a positive number, rounded towards zero.
#[tactic(auto, using(std::proofs::lemmas::Int::quot_fits, std::proofs::lemmas::Int::quot_is))]
fn divided(number: i128, divisor: i64) -> i128
    requires { pos 0 <ℤ divisor }
    ensures { result ≡ int_div number divisor }
{
    number / i128::from(divisor)
}

/// Returns the product of two integers.
fn product(left: i64, right: i64) -> i128
    ensures { result ≡ left *ℤ right }
{
    i128::from(left) * i128::from(right)
}

/// Returns the number if it fits 64 bits.
#[tactic(auto, using(crate::proofs::Computing::is_in_64))]
fn in_64(number: i128) -> Option<i64>
    ensures { result ≡ in_64 number }
{
    i64::try_from(number).ok()
}

/// Returns the product of two integers by a third, or `None` if that isn't positive, or the quotient doesn't fit 64 bits.
pub fn scaled(left: i64, right: i64, divisor: i64) -> Option<i64>
    ensures { result ≡ scaled left right divisor }
{
    if divisor <= 0 {
        return None;
    }
    let product = product(left, right);
    let quotient = divided(product, divisor);
    in_64(quotient)
}

/// Returns whether one text is before another, by their bytes.
pub fn is_before(left: &str, right: &str) -> bool
    ensures { result ≡ is_before left.now right.now }
{
    left < right
}

/// Returns the integer in a value; a text has none, and counts as 0.
fn int_of(value: &Value) -> i64
    ensures { result ≡ int_of value.now }
{
    match value {
        Value::Int(number) => *number,
        Value::Text(_) => 0,
    }
}

/// Returns the sum of an integer and the value that a map of sums has, if it has one, modulo 2^64.
#[tactic(auto, using(std::proofs::lemmas::Int::wraps))]
pub fn sum_with(old: Option<&Value>, number: i64) -> Value
    ensures { result ≡ sum_with (option_copied old.entry) number }
{
    match old {
        Some(old) => Value::Int(int_of(old).wrapping_add(number)),
        None => Value::Int(number),
    }
}

/// Returns one text followed by the other, or `None` if that is longer than `Text::MAX_LEN`.
pub fn joined(alloc: Global, left: &Text, right: &Text) -> Result<Option<Text>, AllocError>
    ensures { IfOk result (λ text. text ≡ joined left.now right.now) }
{
    if left.as_str().len() + right.as_str().len() > Text::MAX_LEN {
        return Ok(None);
    }
    let mut string = String::from_str(alloc, left.as_str())?;
    string.push_str(right.as_str())?;
    Ok(Text::new(string).ok())
}

/// Returns the integer in decimal.
pub fn shown(alloc: Global, number: i64) -> Result<Text, AllocError>
    ensures { IfOk result (λ text. text ≡ signed_decimal number) }
{
    let Ok(text) = Text::new(format!(in alloc; "{number}")?) else {
        unreachable!();
    };
    Ok(text)
}

/// Returns the integer in 64 bits whose `shown` is this text, or `None` if there is none.
pub fn int_shown_as(alloc: Global, text: &Text) -> Result<Option<i64>, AllocError>
    ensures { IfOk result (λ number. number ≡ int_shown_as text.now) }
{
    match text.as_str().parse::<i64>() {
        Ok(number) => {
            let is_canonical = shown(alloc, number)?.as_str() == text.as_str();
            Ok(is_canonical.then_some(number))
        }
        Err(_) => Ok(None),
    }
}
