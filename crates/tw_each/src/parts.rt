//! The parts of what is read, between its line feeds.

ghost use Rattle.std.specs.Prelude.{◌≡◌, ◌++◌, ◌∷◌, IfOk, OnOk, map};
ghost use Rattle.tw_each.specs.Stream.{kept, parts_of};

use crate::lines::MOST_BYTES;
use std::alloc::{AllocError, Global};

/// Returns the parts between line feeds; there is one more than line feeds.
pub(crate) fn parts_of<'a>(alloc: Global, bytes: &'a [u8]) -> Result<Vec<&'a [u8]>, AllocError>
    ensures { IfOk result (λ parts. map (λ part. part.now) parts.items ≡ parts_of bytes.entry.now) }
{
    bytes.split(|byte| *byte == b'\n').collect(alloc)
}

/// Appends bytes to a line, as far as it is kept: up to one byte more than a line may have.
pub(crate) fn keep(line: &mut Vec<u8>, bytes: &[u8]) -> Result<(), AllocError>
    ensures { OnOk result (line.new.items ≡ kept (line.old.items ++ bytes.now)) }
{
    line.extend_from_slice(bytes)?;
    line.truncate(MOST_BYTES + 1);
    Ok(())
}

/// Returns a line and those after it.
pub(crate) fn lines_from<'a>(
    alloc: Global,
    first: &'a [u8],
    others: &[&'a [u8]],
) -> Result<Vec<&'a [u8]>, AllocError>
    ensures { IfOk result (λ lines. map (λ line. line.now) lines.items ≡ first.entry.now ∷ map (λ line. line.now) others.now) }
{
    let mut lines = Vec::with_capacity(alloc, others.len() + 1)?;
    lines.push(first)?;
    for index in 0..others.len() {
        lines.push(others[index])?;
    }
    Ok(lines)
}
