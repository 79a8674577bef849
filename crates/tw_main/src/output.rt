//! Writes the command's output: without hidden characters to a terminal, and in JSON. A terminal may also show colours.

ghost use Rattle.std.specs.Prelude.{ℕ, List, OnOk};
ghost use Rattle.std.specs.Io.KnownBytes.{Appends};
ghost use Rattle.tw_main.specs.Output.{written};

use crate::colours::{PLAIN, colour_of};
use std::alloc::Global;
use std::io;
use std::io::{ErrorKind, Write};
use tw_visible::{Kind, visible};

/// A stream to which the command writes whole texts.
#[derive(Drop)]
pub struct Output<W> {
    alloc: Global,
    writer: W,
    /// The way in which hidden characters are replaced; none is in a report for a file or a pipe.
    kind: Option<Kind>,
    /// Whether errors and ends have colours.
    has_colours: bool,
    /// Why the last write failed, if it did.
    pub failure: Option<ErrorKind>,
}

impl<W: Write> Output<W> {
    /// Makes the stream, by what hidden characters are written as, and whether lines have colours.
    pub fn new(alloc: Global, writer: W, kind: Option<Kind>, has_colours: bool) -> Output<W> {
        Output {
            alloc,
            writer,
            kind,
            has_colours,
            failure: None,
        }
    }

    /// Writes a text, without hidden characters if they are replaced.
    fn put(&mut self, text: &[u8]) -> io::Result<()>
        ensures { OnOk result (Appends (W.contents self.old.writer) (W.contents self.new.writer) (written self.old.kind text.now)) }
    {
        match self.kind {
            Some(kind) => {
                let shown = visible(self.alloc, kind, text)?;
                self.writer.write_all(shown.as_bytes())
            }
            None => self.writer.write_all(text),
        }
    }

    /// Writes what begins or ends a colour.
    fn put_colour(&mut self, sequence: &'static str) -> io::Result<()>
        ensures { OnOk result (Appends (W.contents self.old.writer) (W.contents self.new.writer) sequence.now) }
    {
        self.writer.write_all(sequence.as_bytes())
    }

    /// Writes a text, with colours for the lines that have one.
    fn put_lines(&mut self, text: &[u8]) -> io::Result<()> {
        if !self.has_colours {
            return self.put(text);
        }
        let text = String::from_utf8_lossy(self.alloc, text)?;
        for line in text.as_str().split_inclusive('\n') {
            match colour_of(line.trim_ascii_end()) {
                Some(colour) => {
                    self.put_colour(colour)?;
                    self.put(line.as_bytes())?;
                    self.put_colour(PLAIN)?;
                }
                None => self.put(line.as_bytes())?,
            }
        }
        Ok(())
    }
}

impl<W: Write> Write for Output<W> {
    /// Writes a text whole, or returns an error.
    fn write(&mut self, text: &[u8]) -> io::Result<usize> {
        match self.put_lines(text) {
            Ok(()) => Ok(text.len()),
            Err(error) => {
                self.failure = Some(error.kind());
                Err(error)
            }
        }
    }

    /// Flushes what was written.
    fn flush(&mut self) -> io::Result<()> {
        self.writer.flush()
    }
}
