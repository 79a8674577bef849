//! The text of a procedure while it is made, and the content of its right registers at its current end.

use crate::draw::draw;
use crate::rights::{Right, Want, fits};
use std::alloc::Global;
use tw_report::put_numbered;

/// The text of a program so far, and the content of its last procedure's right registers there.
#[derive(Drop)]
pub struct Code {
    text: Vec<u8>,
    alloc: Global,
    /// Whether all allocations succeeded.
    is_whole: bool,
    held: [Option<Right>; 16],
    /// The registers that must not change: in a block, those that were filled before it.
    kept: [bool; 16],
    labels: usize,
}

impl Code {
    /// Makes the empty text of a random program, with empty registers.
    pub fn new(alloc: Global) -> Code {
        Code {
            text: Vec::new(alloc),
            alloc,
            is_whole: true,
            held: [None; 16],
            kept: [false; 16],
            labels: 0,
        }
    }

    /// Returns the text of a random program, if all allocations succeeded.
    pub fn into_text(self) -> Option<Vec<u8>> {
        if self.is_whole { Some(self.text) } else { None }
    }

    /// Begins another procedure of a random program.
    pub fn clear(&mut self) {
        self.held = [None; 16];
        self.kept = [false; 16];
    }

    /// Appends words to the text of a random program.
    pub fn put(&mut self, words: &str) {
        self.is_whole &= self.text.extend_from_slice(words.as_bytes()).is_ok();
    }

    /// Appends a number to the text of a random program.
    fn number(&mut self, number: usize) {
        self.is_whole &= put_numbered(&mut self.text, "", number).is_ok();
    }

    /// Appends words to a random program. Replaces each `#` by the number of the next register, and each `@` by that of the next
    /// label.
    pub fn line(&mut self, words: &str, registers: &[u8], labels: &[usize]) {
        let (mut registers, mut labels) = (registers.iter(), labels.iter());
        for byte in words.bytes() {
            match byte {
                b'#' => self.number(registers.next().map_or(0, |number| usize::from(*number))),
                b'@' => self.number(labels.next().copied().unwrap_or(0)),
                _ => self.is_whole &= self.text.push(byte).is_ok(),
            }
        }
    }

    /// Returns a label that no line of a random program has.
    pub fn next_label(&mut self) -> usize {
        self.labels = self.labels.wrapping_add(1);
        self.labels
    }

    /// Returns the content of a right register of a random procedure.
    pub fn at(&self, register: u8) -> Option<Right> {
        self.held[usize::from(register) % 16]
    }

    /// Changes the content of a right register of a random procedure.
    pub fn set(&mut self, register: u8, held: Option<Right>) {
        self.held[usize::from(register) % 16] = held;
    }

    /// Returns whether a right register of a random procedure must not change.
    pub fn is_kept(&self, register: u8) -> bool {
        self.kept[usize::from(register) % 16]
    }

    /// Decides whether a right register of a random procedure must not change from now on.
    pub fn keep(&mut self, register: u8, kept: bool) {
        self.kept[usize::from(register) % 16] = kept;
    }

    /// Returns a random register with the right that is sought; if `goes`, only one that may change.
    fn search(&self, seed: &mut u64, want: Want, goes: bool) -> Option<u8> {
        let start = draw(seed, 16);
        for step in 0..16_u8 {
            let register = start.wrapping_add(step) % 16;
            if fits(self.at(register), want) && !(goes && self.is_kept(register)) {
                return Some(register);
            }
        }
        None
    }

    /// Returns a random register with the right that is sought.
    pub fn find(&self, seed: &mut u64, want: Want) -> Option<u8> {
        self.search(seed, want, false)
    }

    /// Returns a random register with the right that is sought and that may change.
    pub fn find_free(&self, seed: &mut u64, want: Want) -> Option<u8> {
        self.search(seed, want, true)
    }

    /// Returns how many right registers of a random procedure are empty.
    pub fn room(&self) -> u8 {
        let mut count: u8 = 0;
        for register in 0..16_u8 {
            if self.at(register).is_none() {
                count = count.wrapping_add(1);
            }
        }
        count
    }

    /// Keeps all registers that are filled now. Returns which ones were kept before.
    pub fn begin_block(&mut self) -> [bool; 16] {
        let before = self.kept;
        for register in 0..16_u8 {
            let held = self.at(register).is_some();
            self.keep(register, held);
        }
        before
    }

    /// Restores what was kept before a block.
    pub fn end_block(&mut self, before: [bool; 16]) {
        self.kept = before;
    }
}
