//! Numbers that are written in words.

ghost use Rattle.std.specs.Prelude.{◌≡◌};
ghost use Rattle.std.specs.Result.{result_ok};
ghost use Rattle.tw_lexer.specs.Digits.{digits_in, signed_in};

use tw_lexer::{digits, number};

/// Returns the number that a word of digits encodes in symbolic assembly, if it is at most `most`.
pub fn natural(text: &[u8], most: u64) -> Option<usize>
    ensures { result ≡ result_ok (digits_in 0 most text.now) }
{
    match digits(text, 0, most) {
        Ok(number) => Some(number as usize),
        Err(_) => None,
    }
}

/// Returns the 64-bit integer that a word of symbolic assembly encodes, as for a constant.
pub fn signed(text: &[u8]) -> Option<i64>
    ensures { result ≡ result_ok (signed_in text.now) }
{
    number(text).ok()
}
