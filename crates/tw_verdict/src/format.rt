//! Formats of a program's source.

ghost use Rattle.std.specs.List.{list_all};
ghost use Rattle.std.specs.Prelude.{◌≡◌};
ghost use Rattle.tw_verdict.specs.Format.{found_format as found_format_is, format_of as format_of_is, is_hex_byte as is_hex_byte_is};

/// The format of a source.
#[derive(Clone, Copy)]
pub enum Format {
    /// The bytes of a program.
    Bytes,
    /// Hex text of these bytes.
    Hex,
    /// Assembly text, symbolic or not.
    Assembly,
}

/// Returns whether a byte is a hex digit or white space.
fn is_hex_byte(byte: &u8) -> bool
    ensures { result ≡ is_hex_byte_is byte.now }
{
    let byte = *byte;
    byte == b' '
        || byte == b'\t'
        || byte == b'\r'
        || byte == b'\n'
        || (b'0' <= byte && byte <= b'9')
        || (b'A' <= byte && byte <= b'F')
        || (b'a' <= byte && byte <= b'f')
}

/// Returns whether a source has hex digits and white space alone.
fn is_hex_text(source: &[u8]) -> bool
    ensures { result ≡ list_all is_hex_byte_is source.now }
{
    source.iter().all(is_hex_byte)
}

/// Finds the format of a source.
fn found_format(source: &[u8]) -> Format
    ensures { result ≡ found_format_is source.now }
{
    if source.starts_with(b"TWB") {
        Format::Bytes
    } else if is_hex_text(source) {
        Format::Hex
    } else {
        Format::Assembly
    }
}

/// Returns the format of a letter: `b` bytes, `h` hex text, `t` assembly text. Any other letter lets it be found: bytes begin with `TWB`, and
/// hex text has only digits and white space, which no assembly text has.
pub fn format_of(letter: u8, source: &[u8]) -> Format
    ensures { result ≡ format_of_is letter source.now }
{
    match letter {
        b'b' => Format::Bytes,
        b'h' => Format::Hex,
        b't' => Format::Assembly,
        _ => found_format(source),
    }
}
