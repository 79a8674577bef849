//! Decodes several items of one kind.

ghost use Rattle.tw_binary.specs.Reading.{AreRead, Gives, Reading, many};

use crate::fault::Stop;
use std::alloc::Global;

/// Decodes `count` items one after the other, each with `read`.
pub fn many<'a, T: Drop, F: Fn(&'a [u8]) -> Result<(T, &'a [u8]), Stop>>(
    alloc: Global,
    count: u16,
    bytes: &'a [u8],
    read: F,
) -> Result<(Vec<T>, &'a [u8]), Stop>
    requires { F.IsAlwaysCallable read }
    // It returns what `many` returns for any parser that `read` implements.
    ensures { (reading : Reading T)
        → AreRead (F.post read) reading
        → Gives (λ x. (x.0.items, x.1.now)) result (many reading count bytes.entry.now) }
{
    let mut items = Vec::new(alloc);
    let mut rest = bytes;
    for _ in 0..count {
        match read(rest) {
            Ok((item, after)) => {
                items.push(item)?;
                rest = after;
            }
            Err(e) => return Err(e),
        }
    }
    Ok((items, rest))
}
