//! Finds the format of a file.

ghost use Rattle.std.specs.Prelude.{◌≡◌, IfOk};
ghost use Rattle.std.specs.Option.{option_map};
ghost use Rattle.tw_files.specs.Format.{begins_as_hex as begins_as_hex_is, is_gap as is_gap_is, is_text as is_text_is, may_be_text, without_gaps as without_gaps_is};

use std::alloc::{AllocError, Global};

/// The number of bytes in which a program's first digits are searched.
const HEAD: usize = 64;

/// Returns whether a byte of a program's file separates hex digits: a space, a tab or a line end.
fn is_gap(byte: u8) -> bool
    ensures { result ≡ is_gap_is byte }
{
    byte == b' ' || byte == b'\t' || byte == b'\r' || byte == b'\n'
}

/// Drops the gaps from the first bytes of a program's file.
fn without_gaps(mut bytes: Vec<u8>) -> Vec<u8>
    ensures { result.items ≡ without_gaps_is bytes.items }
{
    bytes.retain(|byte| !is_gap(*byte));
    bytes
}

/// Returns whether a program's file begins with the magic bytes as hex text.
fn begins_as_hex(alloc: Global, bytes: &[u8]) -> Result<bool, AllocError>
    ensures { IfOk result (λ begins. begins ≡ begins_as_hex_is bytes.now) }
{
    let head = bytes[..HEAD.min(bytes.len())].to_vec(alloc)?;
    Ok(without_gaps(head).starts_with(b"545742"))
}

/// Returns whether a file holds assembly text, and no program as hex text.
fn is_text(alloc: Global, path: &str, bytes: &[u8]) -> Result<bool, AllocError>
    ensures { IfOk result (λ text. text ≡ is_text_is path.now bytes.now) }
{
    let name = path.as_bytes();
    if name.ends_with(b".tw") || name.ends_with(b".twn") {
        return Ok(true);
    }
    if name.ends_with(b".hex") || name.ends_with(b".history") {
        return Ok(false);
    }
    let is_hex = begins_as_hex(alloc, bytes)?;
    Ok(!is_hex)
}

/// Returns whether the file of a program holds assembly text, if it is named.
pub fn is_named_text(alloc: Global, path: Option<&str>, bytes: &[u8]) -> Result<bool, AllocError>
    ensures { IfOk result (λ text. text ≡ may_be_text (option_map (λ path. path.now) path.entry) bytes.now) }
{
    match path {
        Some(path) => is_text(alloc, path, bytes),
        None => Ok(false),
    }
}
