//! The bytes that a session is given, and their parts.

ghost use Rattle.std.specs.Prelude.{◌≡◌, ◌+◌, ◌^◌, ◌<◌, ◌≤◌, [], false, length};
ghost use Rattle.std.specs.Option.{option_map};
ghost use Rattle.tw_session.specs.Parts.{AreReadAs, AreTraced, alone, inputs_of, is_too_long, length_of as length_of_is, parts, program_of, seen, seen_given, with_inputs as with_inputs_is, without_last_feed as without_last_feed_is};

use crate::input::MOST_BYTES;
use tw_order::{Order, RunInputs};
use tw_report::cut_history;
use tw_source::cut_inputs;

/// A program, and what is apart from it. What isn't follows the program, if the order needs it.
#[derive(Clone, Copy)]
pub struct Given<'a> {
    pub program: &'a [u8],
    /// The bytes that would follow a line `inputs`.
    pub inputs: Option<&'a [u8]>,
    /// The bytes that would follow a line `events`.
    pub trace: Option<&'a [u8]>,
}

/// A program and what follows it.
#[derive(Clone, Copy)]
pub struct Parts<'a> {
    pub program: &'a [u8],
    /// Input words in lines, or a JSON array.
    pub inputs: &'a [u8],
    pub trace: &'a [u8],
    /// Whether they have more bytes than a session accepts.
    pub too_long: bool,
}

/// Returns a text without the end of its last line.
fn without_last_feed(text: &[u8]) -> &[u8]
    ensures { result.now ≡ without_last_feed_is text.now }
{
    if text.ends_with(b"\r\n") {
        &text[..text.len().saturating_sub(2)]
    } else if text.ends_with(b"\n") {
        &text[..text.len().saturating_sub(1)]
    } else {
        text
    }
}

/// Returns how many bytes there are, if any.
fn length_of(bytes: Option<&[u8]>) -> usize
    ensures is { result ≡ length_of_is (option_map (λ bytes. bytes.now) bytes.entry) }
    ensures most { result < 2 ^ 63 }
{
    match bytes {
        Some(bytes) => bytes.len(),
        None => 0,
    }
}

impl<'a> Given<'a> {
    /// Returns a program that all else follows.
    pub fn alone(program: &'a [u8]) -> Given<'a>
        ensures { seen_given result ≡ alone program.entry.now }
    {
        Given {
            program,
            inputs: None,
            trace: None,
        }
    }

    /// Returns whether there are more bytes than a session accepts.
    fn is_too_long(self) -> bool
        ensures { result ≡ is_too_long (seen_given self.entry) }
    {
        let before = self.program.len() + length_of(self.inputs);
        if before > MOST_BYTES {
            return true;
        }
        length_of(self.trace) > MOST_BYTES - before
    }

    /// Returns what precedes a trace, and the trace.
    fn traced(self) -> (&'a [u8], &'a [u8])
        ensures parts { AreTraced (seen_given self.entry) result.0.now result.1.now }
        ensures short { length result.1.now ≤ length self.entry.program.now + length_of_is (option_map (λ bytes. bytes.now) self.entry.trace) }
    {
        match self.trace {
            Some(trace) => (self.program, trace),
            None => cut_history(self.program),
        }
    }

    /// Returns a program and its inputs, by what precedes a trace.
    fn cut(self, before: &'a [u8]) -> (&'a [u8], &'a [u8])
        ensures program { result.0.now ≡ program_of (seen_given self.entry) before.entry.now }
        ensures inputs { result.1.now ≡ inputs_of (seen_given self.entry) before.entry.now }
    {
        match self.inputs {
            Some(inputs) => (before, inputs),
            None => cut_inputs(before).unwrap_or((before, &[])),
        }
    }

    /// Returns a program with its inputs, and a trace.
    fn with_inputs(self, before: &'a [u8], trace: &'a [u8]) -> Parts<'a>
        ensures { seen result ≡ with_inputs_is (seen_given self.entry) before.entry.now trace.entry.now }
    {
        let (program, inputs) = self.cut(before);
        Parts {
            program,
            inputs: without_last_feed(inputs),
            trace,
            too_long: self.is_too_long(),
        }
    }

    /// Returns a program, and a trace, without inputs.
    fn without_inputs(self, program: &'a [u8], trace: &'a [u8]) -> Parts<'a>
        ensures { seen result ≡ parts program.entry.now [] trace.entry.now (is_too_long (seen_given self.entry)) }
    {
        Parts {
            program,
            inputs: &[],
            trace,
            too_long: self.is_too_long(),
        }
    }

    /// Returns the parts that an order needs.
    pub fn parts(self, order: &Order) -> Parts<'a>
        ensures parts { AreReadAs order.now (seen_given self.entry) (seen result) }
        ensures few { result.too_long ≡ false → length result.trace.now ≤ 16777216 }
    {
        match order {
            Order::Run(_, _, given) => match given {
                RunInputs::Given(_) => self.without_inputs(self.program, &[]),
                RunInputs::Words | RunInputs::Json => self.with_inputs(self.program, &[]),
            },
            Order::Replay(_, _, _, given) => {
                let (before, trace) = self.traced();
                match given {
                    Some(_) => self.without_inputs(before, trace),
                    None => self.with_inputs(before, trace),
                }
            }
            Order::Assemble(_) | Order::Disassemble(..) | Order::Check(..) | Order::Each(..) => {
                self.without_inputs(self.program, &[])
            }
        }
    }
}
