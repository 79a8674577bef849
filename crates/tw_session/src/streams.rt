//! The streams that a session reads and writes.

ghost use Rattle.std.specs.Prelude.{◌≡◌, ◌≢◌, ◌++◌, ℕ, List, Option, None, IfErr, IfSome, OnErr, OnOk, take, ⊤};
ghost use Rattle.std.specs.Io.KnownBytes.{Appends, Keeps};
ghost use Rattle.std.specs.IoError.{error_kind};

use std::io;
use std::io::{ErrorKind, Read, Write};

/// An input of a session. Every reader of std is one, and may fail.
pub trait InStream {
    // The bytes that it still has, if they are known.
    ghost remaining: { Self → Option (List ℕ) } = { λ _. None };

    // That a read may fail. If this has no proof, none fails.
    ghost MayFail: { Type 0 } = { ⊤ };

    /// Appends the rest, or `most` bytes of it.
    fn read_most(&mut self, most: u64, input: &mut Vec<u8>) -> io::Result<()>
        ensures bytes { OnOk result (IfSome (remaining self.old) (λ all. input.new.items ≡ input.old.items ++ take most all)) }
        ensures failed { IfErr result (λ error. error_kind error ≢ ErrorKind.OutOfMemory → MayFail) };
}

impl<R: Read> InStream for R {
    ghost remaining = { λ reader. R.remaining reader };

    fn read_most(&mut self, most: u64, input: &mut Vec<u8>) -> io::Result<()> {
        self.take(most).read_to_end(input)?;
        Ok(())
    }
}

/// An output of a session. Every writer of std is one, and may fail.
pub trait OutStream {
    // The bytes that were written to it, if they are known.
    ghost contents: { Self → Option (List ℕ) } = { λ _. None };

    // That a write may fail. If this has no proof, none fails.
    ghost MayFail: { Type 0 } = { ⊤ };

    /// Writes the whole text.
    fn take_text(&mut self, text: &[u8]) -> io::Result<()>
        ensures bytes { OnOk result (Appends (contents self.old) (contents self.new) text.now) }
        ensures failed { OnErr result MayFail };

    /// Flushes the text that was written.
    fn hand_on(&mut self) -> io::Result<()>
        ensures bytes { Keeps (contents self.old) (contents self.new) }
        ensures failed { OnErr result MayFail };
}

impl<W: Write> OutStream for W {
    ghost contents = { λ writer. W.contents writer };

    fn take_text(&mut self, text: &[u8]) -> io::Result<()> {
        self.write_all(text)
    }

    fn hand_on(&mut self) -> io::Result<()> {
        self.flush()
    }
}
