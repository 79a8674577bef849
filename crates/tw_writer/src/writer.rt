//! A writer, and the pieces that it takes.

ghost use Rattle.std.specs.Prelude.{◌≡◌, ◌++◌, [], decimal, false, true, IfOk, OnErr, replicate};
ghost use Rattle.std.specs.Result.{IsOk};
ghost use Rattle.tw_writer.specs.Appended.{IsAppended, piece_text, pieces_text};

use std::alloc::{AllocError, Global};

/// A piece of a line.
#[derive(Clone, Copy)]
pub enum Piece<'a> {
    Text(&'a str),
    Bytes(&'a [u8]),
    /// A number in decimal digits.
    Number(usize),
    /// A number of spaces.
    Spaces(usize),
}

/// Bytes to which pieces are appended. That an allocation failed is noted, and reported by `finish`.
#[derive(Drop)]
pub struct Writer {
    pub alloc: Global,
    pub bytes: Vec<u8>,
    /// Whether a piece couldn't be appended.
    pub is_short: bool,
}

impl Writer {
    /// Makes a writer without bytes.
    pub fn new(alloc: Global) -> Writer
        ensures empty { result.bytes.items ≡ [] }
        ensures fine { result.is_short ≡ false }
    {
        Writer {
            alloc,
            bytes: Vec::new(alloc),
            is_short: false,
        }
    }

    /// Notes whether a piece was appended to the bytes.
    pub fn note(&mut self, done: Result<(), AllocError>)
        ensures same { self.new.bytes ≡ self.old.bytes }
        ensures before { self.new.is_short ≡ false → self.old.is_short ≡ false }
        ensures done { self.new.is_short ≡ false → IsOk done }
    {
        self.is_short |= done.is_err();
    }

    /// Notes that a piece couldn't be made.
    pub fn fail(&mut self)
        ensures same { self.new.bytes ≡ self.old.bytes }
        ensures short { self.new.is_short ≡ true }
    {
        self.is_short = true;
    }

    /// Notes whether another writer, whose bytes were appended, is short.
    pub fn note_of(&mut self, other: &Writer)
        ensures same { self.new.bytes ≡ self.old.bytes }
        ensures before { self.new.is_short ≡ false → self.old.is_short ≡ false }
        ensures other { self.new.is_short ≡ false → other.now.is_short ≡ false }
    {
        self.is_short |= other.is_short;
    }

    /// Appends bytes.
    pub fn put_bytes(&mut self, bytes: &[u8])
        ensures { IsAppended self.old self.new bytes.now }
    {
        let done = self.bytes.extend_from_slice(bytes);
        self.note(done)
    }

    /// Appends the bytes of a text.
    pub fn put(&mut self, text: &str)
        ensures { IsAppended self.old self.new text.now }
    {
        self.put_bytes(text.as_bytes())
    }

    /// Appends a number in decimal digits.
    pub fn put_decimal(&mut self, number: usize)
        ensures { IsAppended self.old self.new (decimal number) }
    {
        match format!(in self.alloc; "{number}") {
            Ok(digits) => self.put(&digits),
            Err(_) => self.fail(),
        }
    }

    /// Appends a text, and a number after it.
    pub fn put_numbered(&mut self, front: &str, number: usize)
        ensures { IsAppended self.old self.new (front.now ++ decimal number) }
    {
        self.put(front);
        self.put_decimal(number)
    }

    /// Appends so many spaces.
    fn put_spaces(&mut self, count: usize)
        ensures { IsAppended self.old self.new (replicate count 32) }
    {
        for _ in 0..count {
            self.put(" ");
        }
    }

    /// Appends a piece.
    fn put_piece(&mut self, piece: Piece<'_>)
        ensures { IsAppended self.old self.new (piece_text piece.entry) }
    {
        match piece {
            Piece::Text(text) => self.put(text),
            Piece::Bytes(bytes) => self.put_bytes(bytes),
            Piece::Number(number) => self.put_decimal(number),
            Piece::Spaces(count) => self.put_spaces(count),
        }
    }

    /// Appends pieces, one after another.
    pub fn put_all(&mut self, pieces: &[Piece<'_>])
        ensures { IsAppended self.old self.new (pieces_text pieces.now) }
    {
        for piece in pieces {
            self.put_piece(*piece);
        }
    }

    /// Returns the bytes if all pieces were appended.
    pub fn finish(self) -> Result<Vec<u8>, AllocError>
        ensures all { IfOk result (λ bytes. bytes ≡ self.bytes) }
        ensures fine { IfOk result (λ bytes. self.is_short ≡ false) }
        ensures short { OnErr result (self.is_short ≡ true) }
    {
        if self.is_short {
            Err(AllocError)
        } else {
            Ok(self.bytes)
        }
    }
}
