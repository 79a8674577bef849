//! Decodes quoted texts, byte by byte.

ghost use Rattle.std.specs.Prelude.{◌≡◌, ◌<◌, ◌∷◌, List, ℕ};
ghost use Rattle.std.specs.Char.{digit_value};
ghost use Rattle.std.specs.Option.{SomeIff};
ghost use Rattle.tw_lexer.specs.reading.Inside.{IsInEscape, KeepsEscape, inside_from, read_on};

/// How much of an escape has been read.
#[derive(Clone, Copy)]
pub enum Escape {
    /// Nothing.
    Nothing,
    /// `\`.
    Slash,
    /// `\x`.
    Hex,
    /// `\x` and the first digit, whose value this is.
    Digit(u8),
}

/// The effect of the next byte of a quoted text.
#[derive(Clone, Copy)]
pub enum ByteEffect {
    /// It ends the text.
    End,
    /// It isn't allowed there.
    Wrong,
    /// It begins or continues an escape.
    Into(Escape),
    /// It completes a byte of the text.
    Byte(u8),
}

/// Returns the value of a digit of base 16, in either case, of an escape in a quoted text.
fn hex_value(byte: u8) -> Option<u8>
    ensures { SomeIff result (digit_value byte < 16) (digit_value byte) }
{
    match byte {
        b'0'..=b'9' => Some(byte - b'0'),
        b'a'..=b'f' => Some(byte - b'a' + 10),
        b'A'..=b'F' => Some(byte - b'A' + 10),
        _ => None,
    }
}

/// Returns the effect of a byte of a quoted text, after this much of an escape.
#[tactic(auto, unfolding(crate::specs::reading::Inside::inside_from))]
pub fn read_byte(escape: Escape, byte: u8) -> ByteEffect
    requires { IsInEscape escape }
    ensures goes_on { (rest : List ℕ) → inside_from escape (byte ∷ rest) ≡ read_on result rest }
    ensures escape { KeepsEscape result }
{
    match escape {
        Escape::Nothing => match byte {
            b'"' => ByteEffect::End,
            b'\\' => ByteEffect::Into(Escape::Slash),
            _ => ByteEffect::Byte(byte),
        },
        Escape::Slash => match byte {
            b'"' | b'\\' => ByteEffect::Byte(byte),
            b'n' => ByteEffect::Byte(b'\n'),
            b'x' => ByteEffect::Into(Escape::Hex),
            _ => ByteEffect::Wrong,
        },
        Escape::Hex => match hex_value(byte) {
            Some(digit) if digit < 8 => ByteEffect::Into(Escape::Digit(digit)),
            _ => ByteEffect::Wrong,
        },
        Escape::Digit(first) => match hex_value(byte) {
            Some(digit) => ByteEffect::Byte(16 * first + digit),
            None => ByteEffect::Wrong,
        },
    }
}
