//! Decodes texts.

ghost use Rattle.std.specs.Prelude.{◌≡◌, ◌≤◌};
ghost use Rattle.tw_binary.specs.Reading.{Gives, utf8_at, text_at};

use crate::fault::{FaultNo, Stop};
use crate::items::wide_of;
use std::alloc::Global;
use tw_types::Text;

/// Decodes `size` bytes of UTF-8 as a text.
#[tactic(auto, using(crate::proofs::TextFormat::utf8_tests), unfolding(crate::specs::Reading::utf8_at))]
fn utf8_of(alloc: Global, size: u16, bytes: &[u8]) -> Result<(Text, &[u8]), Stop>
    requires { size ≤ 4096 }
    ensures { Gives (λ x. (x.0, x.1.now)) result (utf8_at size bytes.now) }
{
    let size = size as usize;
    if bytes.len() < size {
        return Err(Stop::missing());
    }
    let (front, rest) = bytes.split_at(size);
    match str::from_utf8(front) {
        Ok(text) => {
            let string = String::from_str(alloc, text)?;
            Ok((Text::new(string).ok().unwrap(), rest))
        }
        Err(_) => Err(Stop::wrong(FaultNo::Utf8, bytes)),
    }
}

/// Decodes a length of at most 4,096, and a text of this many bytes.
pub fn text_of(alloc: Global, bytes: &[u8]) -> Result<(Text, &[u8]), Stop>
    ensures { Gives (λ x. (x.0, x.1.now)) result (text_at bytes.now) }
{
    let (size, rest) = wide_of(0, Text::MAX_LEN as u16, bytes)?;
    utf8_of(alloc, size, rest)
}
