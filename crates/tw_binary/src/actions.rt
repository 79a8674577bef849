//! Decodes targets and arguments of tasks.

ghost use Rattle.tw_binary.specs.Reading.{Gives, args_at, target_at};

use crate::fault::Stop;
use crate::items::*;
use crate::many::many;
use std::alloc::Global;
use tw_code::Procedure;
use tw_types::{Items, Layout};

/// Decodes a target: 0 for any actor, else one more than its number.
pub fn target_of(bytes: &[u8]) -> Result<(Option<u8>, &[u8]), Stop>
    ensures { Gives (λ x. (x.0, x.1.now)) result (target_at bytes.now) }
{
    let (code, rest) = byte_of(0, Layout::MAX_WORKERS, bytes)?;
    match code {
        0 => Ok((None, rest)),
        _ => Ok((Some(code - 1), rest)),
    }
}

/// Decodes a count of at most 8, and this many registers.
pub fn args_of(alloc: Global, bytes: &[u8]) -> Result<(Items<u8>, &[u8]), Stop>
    ensures { Gives (λ x. (x.0, x.1.now)) result (args_at bytes.now) }
{
    let (count, rest) = byte_of(0, Procedure::MAX_PARAMS, bytes)?;
    match many(alloc, u16::from(count), rest, register_of) {
        Ok((args, rest)) => Ok((Items::from(args), rest)),
        Err(e) => Err(e),
    }
}
