//! Names, and names before a `:`.

ghost use Rattle.std.specs.Prelude.{◌≡◌, ◌≢◌, ◌++◌, ℕ, List, MatchOption};
ghost use Rattle.std.specs.Option.{option_map};
ghost use Rattle.tw_lexer.specs.Digits.{is_within};
ghost use Rattle.tw_lexer.specs.Names.{all_in_name, before_colon, is_in_name, is_letter, is_name};

/// Returns whether a byte is a letter or digit between two others, both included.
fn is_within(low: u8, high: u8, byte: u8) -> bool
    ensures { result ≡ is_within low high byte }
{
    low <= byte && byte <= high
}

/// Returns whether a byte is an ASCII letter, with which a name begins.
fn is_letter(byte: u8) -> bool
    ensures { result ≡ is_letter byte }
{
    is_within(b'A', b'Z', byte) || is_within(b'a', b'z', byte)
}

/// Returns whether a byte may be in a name: a letter, a digit or `_`.
fn is_in_name(byte: u8) -> bool
    ensures { result ≡ is_in_name byte }
{
    is_letter(byte) || is_within(b'0', b'9', byte) || byte == b'_'
}

/// Returns whether all bytes of a text may be in a name.
fn all_in_name(text: &[u8]) -> bool
    ensures { result ≡ all_in_name text.now }
{
    for byte in text {
        if !is_in_name(*byte) {
            return false;
        }
    }
    true
}

/// Returns whether a word is a letter followed by letters, digits or `_`.
pub fn is_name(text: &[u8]) -> bool
    ensures { result ≡ is_name text.now }
{
    match text {
        [] => false,
        [first, others @ ..] => is_letter(*first) && all_in_name(others),
    }
}

/// Returns the bytes of a word before this suffix, or `None` if they don't end with it.
pub fn before<'a>(bytes: &'a [u8], back: &[u8]) -> Option<&'a [u8]>
    ensures { MatchOption result
        ((front : List ℕ) → bytes.entry.now ≢ front ++ back.now)
        (λ front. bytes.entry.now ≡ front.now ++ back.now) }
{
    bytes.strip_suffix(back)
}

/// Returns the bytes of a word before a `:` at its end, such as a label's name, or `None` if there is none.
pub fn before_colon(word: &[u8]) -> Option<&[u8]>
    ensures { option_map (λ name. name.now) result ≡ before_colon word.now }
{
    before(word, b":")
}
