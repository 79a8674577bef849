//! Sessions.

ghost use Rattle.std.specs.Prelude.{◌≡◌, ◌<◌, IfOk, length};
ghost use Rattle.tw_source.specs.Reply.{reply};
ghost use Rattle.tw_session.specs.Clockless.{AnswersWords};
ghost use Rattle.tw_session.specs.Status.{code_of};
ghost use Rattle.tw_calls.specs.SessionAnswers.{IsAnswered, arguments_in, filled};

use crate::arguments::arguments_of;
use std::alloc::{AllocError, Global};
use tw_session::{Close, Reply, Status, answer_in_turn};

/// Runs a session with the arguments of a text, which this ASCII character ends, and the bytes that `tw` would read. Returns an error if an allocation
/// fails.
pub(crate) fn answer(
    alloc: Global,
    words: &str,
    ending: char,
    input: &[u8],
) -> Result<Reply, AllocError>
    requires { ending < 128 }
    ensures { IfOk result (λ r. AnswersWords (arguments_in ending words.now) input.now (reply r.text.items r.close)) }
{
    let words = arguments_of(alloc, words, ending)?;
    answer_in_turn(alloc, words.as_slice(), input)
}

/// Writes a text to the start of the buffer, if it fits. Returns its length.
fn put(room: &mut [u8], text: &[u8]) -> usize
    ensures count { result ≡ length text.now }
    ensures room { room.new ≡ filled text.now room.old }
{
    let length = text.len();
    if length <= room.len() {
        room[..length].copy_from_slice(text);
    }
    length
}

/// Writes a text and the code of its status. Returns the text's length.
fn write_answer(room: &mut [u8], status: &mut u8, ended: Status, text: &[u8]) -> usize
    ensures code { status.new ≡ code_of ended }
    ensures count { result ≡ length text.now }
    ensures room { room.new ≡ filled text.now room.old }
{
    *status = ended.code();
    put(room, text)
}

/// Does what the command `tw` does. `words` are its arguments, each followed by a line feed, which the last may lack. `input` is what `tw` would
/// read. Its output is written to the start of `room`, if it fits, and its exit status to `status`. Returns the length of the output in bytes. If it
/// doesn't fit, call again with a buffer of this length. A program is run in one thread, so the second call has the same output.
pub fn session(alloc: Global, words: &[u8], input: &[u8], room: &mut [u8], status: &mut u8) -> usize
    ensures { IsAnswered words.now input.now room.old room.new status.new result }
{
    let Ok(words) = str::from_utf8(words) else {
        let ended = Status::Ended(Close::CommandLine);
        return write_answer(room, status, ended, "command line refused\n".as_bytes());
    };
    match answer(alloc, words, '\n', input) {
        Ok(reply) => write_answer(
            room,
            status,
            Status::Ended(reply.close),
            reply.text.as_slice(),
        ),
        Err(_) => write_answer(room, status, Status::NoMemory, "memory\n".as_bytes()),
    }
}
