//! The output of a case, piece by piece.

use crate::complaint::Complaint;
use std::alloc::Global;
use std::fmt::{Debug, Display};
use tw_report::{put_event_line, put_numbered};
use tw_types::Event;

/// A growing text. If an allocation fails it is lost, which is checked once, at its end, so that callers need no case for it.
#[derive(Drop)]
pub struct Text {
    bytes: Vec<u8>,
    alloc: Global,
    is_whole: bool,
}

impl Text {
    /// Returns an empty output of a case.
    pub fn new(alloc: Global) -> Text {
        Text {
            bytes: Vec::new(alloc),
            alloc,
            is_whole: true,
        }
    }

    /// Returns what allocates the pieces of a case's output.
    pub fn alloc(&self) -> Global {
        self.alloc
    }

    /// Adds words to a case's output.
    pub fn put(&mut self, words: &str) {
        self.put_bytes(words.as_bytes());
    }

    /// Adds bytes to a case's output. If memory runs out, it isn't whole.
    pub fn put_bytes(&mut self, bytes: &[u8]) {
        self.is_whole &= self.bytes.extend_from_slice(bytes).is_ok();
    }

    /// Adds another text to a case's output.
    pub fn add(&mut self, other: &Text) {
        self.is_whole &= other.is_whole;
        self.put_bytes(other.bytes.as_slice());
    }

    /// Adds words to a case's output, followed by a number.
    pub fn number(&mut self, words: &str, number: u64) {
        self.is_whole &= put_numbered(&mut self.bytes, words, number as usize).is_ok();
    }

    /// Adds words to a case's output, followed by `true` or `false`.
    pub fn put_flag(&mut self, words: &str, is_so: bool) {
        self.put(words);
        self.put(if is_so { "true" } else { "false" });
    }

    /// Adds a complaint to a case's output if the library's result differs.
    pub fn put_other(&mut self, is_same: bool) {
        if !is_same {
            self.put(" but the library says something else");
        }
    }

    /// Adds the line of an event to a case's output.
    pub fn event(&mut self, event: &Event) {
        self.is_whole &= put_event_line(&mut self.bytes, event).is_ok();
    }

    /// Adds a value to a case's output in the form for users.
    pub fn display<T: Display>(&mut self, shown: &T) {
        match format!(in self.alloc; "{shown}") {
            Ok(text) => self.put(text.as_str()),
            Err(_) => self.is_whole = false,
        }
    }

    /// Adds a value to a case's output in the form for debugging.
    pub fn debug<T: Debug>(&mut self, shown: &T) {
        match format!(in self.alloc; "{shown:?}") {
            Ok(text) => self.put(text.as_str()),
            Err(_) => self.is_whole = false,
        }
    }

    /// Loses a case's output, because an allocation failed elsewhere.
    pub fn lose(&mut self) {
        self.is_whole = false;
    }

    /// Returns a case's output so far.
    pub fn written(&self) -> &[u8] {
        self.bytes.as_slice()
    }

    /// Returns whether a case's output equals the other text, and neither is lost.
    pub fn is(&self, other: &Text) -> bool {
        self.is_whole && other.is_whole && self.bytes.as_slice() == other.bytes.as_slice()
    }

    /// Returns whether a case's output begins and ends with these texts.
    pub fn has_between(&self, first: &str, last: &str) -> bool {
        let bytes = self.bytes.as_slice();
        self.is_whole && bytes.starts_with(first.as_bytes()) && bytes.ends_with(last.as_bytes())
    }

    /// Returns a case's output with a slash for each line end except the last.
    pub fn into_line(self) -> Result<String, Complaint> {
        let Text {
            bytes,
            alloc,
            is_whole,
        } = self;
        if !is_whole {
            return Err(Complaint::NoMemory);
        }
        match str::from_utf8(bytes.as_slice()) {
            Ok(text) => {
                let lines = text.strip_suffix('\n').unwrap_or(text);
                Ok(lines.replace(alloc, "\n", " / ")?)
            }
            Err(_) => Err(Complaint::WrittenBytes),
        }
    }
}
