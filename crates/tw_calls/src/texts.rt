//! Sessions whose output a handle holds.

ghost use Rattle.std.specs.Prelude.{IfOk};
ghost use Rattle.tw_session.specs.declared.status.Status.TheVariants.{Ended};
ghost use Rattle.tw_calls.specs.SessionAnswers.{Answers, IsAnswerKept, IsKeptWith, nul};

use crate::sessions::answer;
use std::alloc::{AllocError, Global};
use tw_handles::{Handle, text_handle};
use tw_session::{Close, Reply, Status};
use tw_source::fixed_reply;

/// Runs a session with arguments that NUL ends, and the bytes that `tw` would read. Returns an error if an allocation fails.
fn reply_to(alloc: Global, words: &[u8], input: &[u8]) -> Result<Reply, AllocError>
    ensures { IfOk result (λ r. Answers nul words.now input.now (Ended r.close) r.text.items) }
{
    match str::from_utf8(words) {
        Ok(words) => answer(alloc, words, '\0', input),
        Err(_) => fixed_reply(alloc, "command line refused\n", Close::CommandLine),
    }
}

/// Puts the text of a reply into a handle, whose former contents are freed. Returns the code of the reply's status.
fn keep_reply(alloc: Global, reply: Reply, output: &mut Handle) -> u8
    ensures { IsKeptWith reply.close reply.text.items output.old.held output.new.held result }
{
    let Reply { text, close, .. } = reply;
    match text_handle(alloc, text) {
        Ok(handle) => {
            *output = handle;
            Status::Ended(close).code()
        }
        Err(_) => Status::NoMemory.code(),
    }
}

/// Does what the command `tw` does. `words` are its arguments, each followed by a NUL, which the last may lack. `input` is what `tw` would read. Its
/// output is put into the handle, whose former contents are freed. Returns its exit status; after 5, out of memory, the handle is as it was.
pub fn session_text(alloc: Global, words: &[u8], input: &[u8], output: &mut Handle) -> u8
    ensures { IsAnswerKept words.now input.now output.old.held output.new.held result }
{
    match reply_to(alloc, words, input) {
        Ok(reply) => keep_reply(alloc, reply, output),
        Err(_) => Status::NoMemory.code(),
    }
}
