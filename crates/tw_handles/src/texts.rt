//! Texts that a handle holds.

ghost use Rattle.std.specs.Prelude.{◌≡◌, IfOk, None, Some, length, option_map};
ghost use Rattle.tw_handles.specs.Codes.{done};
ghost use Rattle.tw_handles.specs.Texts.{IsTextKept, text_in};

use crate::codes;
use crate::handle::Handle;
use crate::held::Held;
use std::alloc::{AllocError, Global};

/// Puts a text into a new handle.
pub fn text_handle(alloc: Global, text: Vec<u8>) -> Result<Handle, AllocError>
    ensures { IfOk result (λ h. text_in h.held ≡ Some text.items) }
{
    Handle::of_held(alloc, Held::Text(text))
}

/// Puts a text into a handle, whose former contents are freed.
pub(crate) fn keep_text(alloc: Global, made: Vec<u8>, text: &mut Handle) -> u8
    ensures { IsTextKept made.items text.old.held text.new.held result }
{
    match text_handle(alloc, made) {
        Ok(handle) => {
            *text = handle;
            codes::DONE
        }
        Err(_) => codes::NO_MEMORY,
    }
}

/// Returns the text, if the contents are one.
fn text_out(held: Held) -> Option<Vec<u8>>
    ensures { option_map (λ v. v.items) result ≡ text_in (Some held) }
{
    match held {
        Held::Text(text) => Some(text),
        Held::Program(_) | Held::Inputs(_) | Held::Report(_) | Held::Stop(_) | Held::Container(_) =>
            None,
    }
}

/// Takes the text out of a handle, which is null then. For callers that aren't C.
pub fn take_text(alloc: Global, text: &mut Handle) -> Option<Vec<u8>>
    ensures taken { option_map (λ v. v.items) result ≡ text_in text.old.held }
    ensures null { text.new.held ≡ None }
{
    match text.take(alloc) {
        Some(whole) => text_out(Box::into_inner(whole)),
        None => None,
    }
}

/// Writes the length of a text in bytes.
pub fn text_length(text: &[u8], count: &mut usize) -> u8
    ensures count { count.new ≡ length text.now }
    ensures code { result ≡ done }
{
    *count = text.len();
    codes::DONE
}
