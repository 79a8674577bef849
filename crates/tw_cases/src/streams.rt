//! Cases of sessions with readers that are slow, fail, never end or never fail, with writers that fail, and without arguments.

use crate::sessions::code_of;
use std::alloc::Global;
use std::io;
use std::io::{ErrorKind, Read, Write};
use std::sync::Wait;
use std::thread::Threads;
use std::time::Clock;
use tw_case_lines::{Complaint, Text};
use tw_session::{InStream, OutStream, without_words};

/// A reader that returns at most one byte per call, and fails after `calls` calls. If it is slow, every second call is interrupted.
#[derive(Drop)]
struct Source<'a> {
    rest: &'a [u8],
    calls: usize,
    kind: ErrorKind,
    is_slow: bool,
}

impl Read for Source<'_> {
    /// Reads one byte of a case's input, or fails as the case says.
    fn read(&mut self, buf: &mut [u8]) -> io::Result<usize> {
        if self.calls == 0 {
            return Err(io::Error::from(self.kind));
        }
        self.calls -= 1;
        if self.is_slow && self.calls % 2 == 1 {
            return Err(io::Error::from(ErrorKind::Interrupted));
        }
        match (self.rest.split_first(), buf.first_mut()) {
            (Some((first, rest)), Some(slot)) => {
                *slot = *first;
                self.rest = rest;
                Ok(1)
            }
            _ => Ok(0),
        }
    }
}

/// A reader that returns digits without end, as many as fit, and counts them.
#[derive(Drop)]
struct Endless {
    given: usize,
}

impl Read for Endless {
    /// Fills the buffer with digits, as an input of a case that never ends.
    fn read(&mut self, buf: &mut [u8]) -> io::Result<usize> {
        buf.fill(b'1');
        self.given = self.given.saturating_add(buf.len());
        Ok(buf.len())
    }
}

/// A writer that takes three bytes per call and `room` bytes in all, and then fails like a closed pipe. A flush may fail.
#[derive(Drop)]
struct Sink {
    taken: Vec<u8>,
    calls_after: usize,
    room: usize,
    is_flushed: bool,
}

impl Write for Sink {
    /// Takes at most three bytes of a session's output, until the case's room is full.
    fn write(&mut self, buf: &[u8]) -> io::Result<usize> {
        let left = self.room.saturating_sub(self.taken.len());
        let count = buf.len().min(left).min(3);
        if count == 0 {
            self.calls_after = self.calls_after.saturating_add(1);
            return Err(io::Error::from(ErrorKind::BrokenPipe));
        }
        self.taken.extend_from_slice(&buf[..count])?;
        Ok(count)
    }

    /// Succeeds or fails as the case of a session's writer says.
    fn flush(&mut self) -> io::Result<()> {
        if self.is_flushed {
            Ok(())
        } else {
            Err(io::Error::from(ErrorKind::TimedOut))
        }
    }
}

/// An input that never fails, without what is read already.
#[derive(Drop)]
struct Held<'a> {
    rest: &'a [u8],
}

impl InStream for Held<'_> {
    ghost MayFail = { ⊥ };

    /// Appends the rest of a case's input, or `most` bytes of it.
    fn read_most(&mut self, most: u64, input: &mut Vec<u8>) -> io::Result<()> {
        let count = usize::try_from(most)
            .unwrap_or(usize::MAX)
            .min(self.rest.len());
        let (first, rest) = self.rest.split_at(count);
        match input.extend_from_slice(first) {
            Ok(()) => {
                self.rest = rest;
                Ok(())
            }
            Err(_) => Err(io::Error::from(ErrorKind::OutOfMemory)),
        }
    }
}

/// A writer that keeps the first 256 bytes, and never fails.
#[derive(Drop)]
pub struct Room {
    bytes: [u8; 256],
    count: usize,
    is_handed_on: bool,
}

impl Room {
    /// Makes a writer of a session's output that has kept nothing.
    pub fn new() -> Room {
        Room {
            bytes: [0; 256],
            count: 0,
            is_handed_on: false,
        }
    }

    /// Returns what a session wrote, up to 256 bytes.
    pub fn written(&self) -> &[u8] {
        &self.bytes[..self.count.min(256)]
    }
}

impl OutStream for Room {
    ghost MayFail = { ⊥ };

    /// Keeps a session's output as far as there is room for it, and counts all of it.
    fn take_text(&mut self, text: &[u8]) -> io::Result<()> {
        for byte in text {
            if let Some(slot) = self.bytes.get_mut(self.count) {
                *slot = *byte;
            }
            self.count = self.count.wrapping_add(1);
        }
        Ok(())
    }

    /// Notes that a session has flushed its output.
    fn hand_on(&mut self) -> io::Result<()> {
        self.is_handed_on = true;
        Ok(())
    }
}

/// Adds a session's status, and then what it wrote.
pub fn put_reply(text: &mut Text, code: u8, written: &[u8]) {
    text.number("", u64::from(code));
    text.put(if written.is_empty() { "\n" } else { " " });
    text.put_bytes(written);
}

/// Returns the output of a session of a case that reads from a source.
fn over_source<H: AllocGlobal + Threads + Wait + Clock + Sync>(
    rt: &H,
    words: &[String],
    mut source: Source<'_>,
) -> Text {
    let mut writer = Vec::new(rt.alloc());
    let code = code_of(rt, words, &mut source, &mut writer);
    let mut text = Text::new(rt.alloc());
    put_reply(&mut text, code, writer.as_slice());
    text
}

/// Runs sessions whose reader fails at each call before the end of the input. Returns their common output, and how many there are.
fn failing<H: AllocGlobal + Threads + Wait + Clock + Sync>(
    rt: &H,
    words: &[String],
    input: &[u8],
    kind: ErrorKind,
) -> Text {
    let mut text = Text::new(rt.alloc());
    for calls in 0..input.len() {
        let source = Source {
            rest: input,
            calls,
            kind,
            is_slow: false,
        };
        let came = over_source(rt, words, source);
        if calls > 0 && !came.is(&text) {
            text.number("and not after ", calls as u64);
            return text;
        }
        text = came;
    }
    text.number("times ", input.len() as u64);
    text
}

/// Returns the output of a session whose input never ends, and how much of it was read.
fn without_end<H: AllocGlobal + Threads + Wait + Clock + Sync>(rt: &H, words: &[String]) -> Text {
    let mut reader = Endless { given: 0 };
    let mut writer = Vec::new(rt.alloc());
    let code = code_of(rt, words, &mut reader, &mut writer);
    let mut text = Text::new(rt.alloc());
    put_reply(&mut text, code, writer.as_slice());
    text.number("read ", reader.given as u64);
    text
}

/// Runs a session. Returns its status, how often the writer was called after it was full, and what it took.
fn into_sink<H: AllocGlobal + Threads + Wait + Clock + Sync>(
    rt: &H,
    words: &[String],
    mut input: &[u8],
    room: usize,
    is_flushed: bool,
) -> (u8, usize, Vec<u8>) {
    let mut writer = Sink {
        taken: Vec::new(rt.alloc()),
        calls_after: 0,
        room,
        is_flushed,
    };
    let code = code_of(rt, words, &mut input, &mut writer);
    let Sink {
        taken,
        calls_after,
        ..
    } = writer;
    (code, calls_after, taken)
}

/// Returns how many writers that are too small for a session's text have a full prefix of it, a session with status 7, and one
/// call afterwards.
fn full<H: AllocGlobal + Threads + Wait + Clock + Sync>(
    rt: &H,
    words: &[String],
    input: &[u8],
) -> Text {
    let (_, _, whole) = into_sink(rt, words, input, usize::MAX, true);
    let mut prefixes = 0_u64;
    for room in 0..whole.len() {
        let (code, calls_after, taken) = into_sink(rt, words, input, room, true);
        let is_front = Some(taken.as_slice()) == whole.as_slice().get(..room);
        let is_so = code == 7 && calls_after == 1 && is_front;
        prefixes = prefixes.wrapping_add(u64::from(is_so));
    }
    let mut text = Text::new(rt.alloc());
    text.number("7 fronts ", prefixes);
    text
}

/// Returns the output of a session whose writer takes everything, and succeeds or fails to flush.
fn handed<H: AllocGlobal + Threads + Wait + Clock + Sync>(
    rt: &H,
    words: &[String],
    input: &[u8],
    is_flushed: bool,
) -> Text {
    let (code, _, taken) = into_sink(rt, words, input, usize::MAX, is_flushed);
    let mut text = Text::new(rt.alloc());
    put_reply(&mut text, code, taken.as_slice());
    text
}

/// Runs a session with streams that never fail. Returns its output, how much input is left, and whether the output was passed on.
fn steady<H: AllocGlobal + Threads + Wait + Clock + Sync>(
    rt: &H,
    words: &[String],
    input: &[u8],
) -> Text {
    let mut reader = Held { rest: input };
    let mut writer = Room::new();
    let code = code_of(rt, words, &mut reader, &mut writer);
    let mut text = Text::new(rt.alloc());
    put_reply(&mut text, code, writer.written());
    text.number("left ", reader.rest.len() as u64);
    text.put(if writer.is_handed_on {
        " handed on"
    } else {
        ""
    });
    text
}

/// Returns the output of a session whose arguments can't be read.
fn unworded(alloc: Global, kind: ErrorKind) -> Text {
    let mut writer = Vec::new(alloc);
    let code = without_words(kind, &mut writer).code();
    let mut text = Text::new(alloc);
    put_reply(&mut text, code, writer.as_slice());
    text
}

/// Runs a session whose reader is slow and never fails.
fn slowly<H: AllocGlobal + Threads + Wait + Clock + Sync>(
    rt: &H,
    words: &[String],
    input: &[u8],
) -> Text {
    let source = Source {
        rest: input,
        calls: 1_000,
        kind: ErrorKind::TimedOut,
        is_slow: true,
    };
    over_source(rt, words, source)
}

/// Runs a session with these arguments and streams of this kind, and returns its output as one line.
pub fn stream_text<H: AllocGlobal + Threads + Wait + Clock + Sync>(
    rt: &H,
    streams: &str,
    words: &[String],
    input: &[u8],
) -> Result<String, Complaint> {
    let text = match streams {
        "slow" => slowly(rt, words, input),
        "timed_out" => failing(rt, words, input, ErrorKind::TimedOut),
        "out_of_memory" => failing(rt, words, input, ErrorKind::OutOfMemory),
        "endless" => without_end(rt, words),
        "full" => full(rt, words, input),
        "flushed" => handed(rt, words, input, true),
        "unflushed" => handed(rt, words, input, false),
        "steady" => steady(rt, words, input),
        "no_words" => unworded(rt.alloc(), ErrorKind::InvalidData),
        "no_memory_for_words" => unworded(rt.alloc(), ErrorKind::OutOfMemory),
        _ => return Err(Complaint::UnknownKind),
    };
    text.into_line()
}
