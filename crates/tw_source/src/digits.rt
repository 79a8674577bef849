//! Digits of hex text.

ghost use Rattle.std.specs.Prelude.{◌≡◌};
ghost use Rattle.tw_source.specs.Input.{digits_in, is_gap_byte};

/// Returns whether a byte is a space, a tab, a carriage return or a line feed.
pub fn is_gap(byte: u8) -> bool
    ensures { result ≡ is_gap_byte byte }
{
    byte == b' ' || byte == b'\t' || byte == b'\r' || byte == b'\n'
}

/// Drops the gaps of hex text.
pub fn digits(mut text: Vec<u8>) -> Vec<u8>
    ensures { result.items ≡ digits_in text.items }
{
    text.retain(|byte| !is_gap(*byte));
    text
}
