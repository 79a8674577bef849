//! Reads decimal numbers.

ghost use Rattle.std.specs.Prelude.{◌≡◌, ◌<◌, ◌≤◌, ◌^◌, pos, neg_ℤ};
ghost use Rattle.std.specs.Char.{digit_value};
ghost use Rattle.std.specs.Int.{IsInRange};
ghost use Rattle.std.specs.Option.{SomeIff};
ghost use Rattle.tw_lexer.specs.Number.{IsIn64, IsRead, EncodesDigits, EncodesNumber};

use crate::first::after;

/// The error of a text that isn't the number that is expected, or of words that aren't a statement.
#[derive(Clone, Copy, Debug, PartialEq, Eq)]
pub enum TokenError {
    /// It has another form, or there are too few or too many words.
    Form,
    /// A number, a count, a nesting of containers, a name or a text is out of its limits.
    Limit,
}

/// Returns the value of a decimal digit of a word.
fn digit_of(byte: u8) -> Option<u8>
    ensures { SomeIff result (digit_value byte < 10) (digit_value byte) }
{
    match byte {
        b'0'..=b'9' => Some(byte - b'0'),
        _ => None,
    }
}

/// Returns the number between these limits that the digits write. Fails with `Form` if they aren't digits, with `Limit` if the number is out of the
/// limits.
pub fn digits(text: &[u8], low: u64, high: u64) -> Result<u64, TokenError>
    ensures { IsRead (λ n. EncodesDigits n text.now) (IsInRange low high) result }
{
    let past = u128::from(high) + 1;
    let mut value = 0;
    for byte in text {
        let Some(digit) = digit_of(*byte) else {
            return Err(TokenError::Form);
        };
        value = past.min(10 * value + u128::from(digit));
    }
    if text.is_empty() {
        Err(TokenError::Form)
    } else if value == past || value < u128::from(low) {
        Err(TokenError::Limit)
    } else {
        Ok(value as u64)
    }
}

/// Returns the negative integer of this size, of a word with `-` before its digits.
fn negated(size: u64) -> i64
    requires { size ≤ 2 ^ 63 }
    ensures { result ≡ neg_ℤ (pos size) }
{
    (-(size as i128)) as i64
}

/// Returns the number that the text writes: digits, with or without `-` before them. Fails with `Limit` if it doesn't fit 64 bits.
pub fn number(text: &[u8]) -> Result<i64, TokenError>
    ensures { IsRead (λ n. EncodesNumber n text.now) IsIn64 result }
{
    match after(b"-", text) {
        Some(size) => match digits(size, 0, 1 << 63) {
            Ok(size) => Ok(negated(size)),
            Err(flaw) => Err(flaw),
        },
        None => match digits(text, 0, i64::MAX as u64) {
            Ok(size) => Ok(size as i64),
            Err(flaw) => Err(flaw),
        },
    }
}
