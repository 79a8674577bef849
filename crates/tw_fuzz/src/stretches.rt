//! Random programs of local instructions.

ghost use Rattle.std.specs.Prelude.{◌<◌};

use crate::draw::draw;
use std::alloc::Global;

/// The magic bytes, the version, and one procedure: control, without parameters, with three ints and three texts.
const HEAD: [u8; 14] = [
    0x54, 0x57, 0x42, 0x01, 0x01, 0x00, 0x00, 0x06, 1, 1, 1, 2, 2, 2,
];

/// Numbers to begin with: small ones, and some at the limits of 64 bits.
const NUMBERS: [[u8; 8]; 5] = [
    [0, 0, 0, 0, 0, 0, 0, 2],
    [0, 0, 0, 0, 0, 0, 0, 0],
    [255, 255, 255, 255, 255, 255, 255, 253],
    [127, 255, 255, 255, 255, 255, 255, 255],
    [128, 0, 0, 0, 0, 0, 0, 0],
];

/// Texts to begin with: some are decimal numbers, and some almost.
const TEXTS: [&str; 6] = ["", "7", "-12", "007", "\u{fc}b", "9223372036854775808"];

/// Code while it is made, by instructions.
#[derive(Drop)]
struct Code {
    bytes: Vec<u8>,
    count: u8,
    /// Whether all allocations succeeded.
    is_whole: bool,
}

impl Code {
    /// Appends bytes to the code of a random program of local instructions.
    fn put(&mut self, bytes: &[u8]) {
        self.is_whole &= self.bytes.extend_from_slice(bytes).is_ok();
    }

    /// Appends the bytes of one more instruction, and counts it.
    fn add(&mut self, bytes: &[u8]) {
        self.count = self.count.saturating_add(1);
        self.put(bytes);
    }
}

/// Returns one of the three random registers of type int.
fn int_register(seed: &mut u64) -> u8 {
    draw(seed, 3)
}

/// Returns one of the three random registers of type text.
fn text_register(seed: &mut u64) -> u8 {
    draw(seed, 3).saturating_add(3)
}

/// Adds the bytes of an INT with a random number.
fn add_int(code: &mut Code, seed: &mut u64, to: u8) {
    let mut bytes = [1, to, 0, 0, 0, 0, 0, 0, 0, 0];
    let number = NUMBERS[usize::from(draw(seed, 5)) % 5];
    for index in 0..8_usize {
        bytes[index + 2] = number[index];
    }
    code.add(&bytes);
}

/// Adds the bytes of a TEXT with a random text.
fn add_text(code: &mut Code, seed: &mut u64, to: u8) {
    let text = TEXTS[usize::from(draw(seed, 6)) % 6];
    code.add(&[2, to, 0, u8::try_from(text.len()).unwrap_or(0)]);
    code.put(text.as_bytes());
}

/// Adds a random local instruction with a skip, or COPY, LEN or SHOW. `remaining` instructions follow it in its block.
fn add_other(code: &mut Code, seed: &mut u64, remaining: u8) {
    let skip = draw(seed, u64::from(remaining).saturating_add(1));
    let (int, left, right) = (int_register(seed), int_register(seed), int_register(seed));
    let (text, first, second) = (
        text_register(seed),
        text_register(seed),
        text_register(seed),
    );
    match draw(seed, 14) {
        0 => code.add(&[0x03, int, left]),
        1 => code.add(&[0x03, text, first]),
        2 => code.add(&[0x10, int, left, right, 0, skip]),
        3 => code.add(&[0x11, int, left, right, 0, skip]),
        4 => code.add(&[0x12, int, left, right, 0, skip]),
        5 => code.add(&[0x13, int, left, right, 0, skip]),
        6 => code.add(&[0x14, int, left, right, 0, skip]),
        7 => code.add(&[0x18, text, first, second, 0, skip]),
        8 => code.add(&[0x19, int, text]),
        9 => code.add(&[0x1a, text, int]),
        10 => code.add(&[0x1b, int, text, 0, skip]),
        11 => code.add(&[0x21, left, right, 0, skip]),
        12 => code.add(&[0x21, first, second, 0, skip]),
        _ => code.add(&[0x22, left, right, 0, skip]),
    }
}

/// Adds fewer random local instructions than the bound, one after the other.
fn add_block(code: &mut Code, seed: &mut u64, bound: u64)
    requires { 0 < bound }
{
    let count = draw(seed, bound);
    for index in 0..count {
        let remaining = count - index - 1;
        let (int, text) = (int_register(seed), text_register(seed));
        match draw(seed, 10) {
            0 => add_int(code, seed, int),
            1 => add_text(code, seed, text),
            2 => code.add(&[
                0x20,
                0,
                draw(seed, u64::from(remaining).saturating_add(1)) / 3,
            ]),
            _ => add_other(code, seed, remaining),
        }
    }
}

/// Adds a random loop in a loop, with instructions before, between and after them, and RET.
fn add_loops(code: &mut Code, seed: &mut u64) {
    add_block(code, seed, 4);
    code.add(&[0x23, 0, draw(seed, 3).saturating_add(1)]);
    add_block(code, seed, 4);
    code.add(&[0x23, 0, draw(seed, 5).saturating_add(1)]);
    add_block(code, seed, 5);
    code.add(&[0x24]);
    add_block(code, seed, 3);
    code.add(&[0x24]);
    add_block(code, seed, 4);
    code.add(&[0x42]);
}

/// Returns the bytes of the next random program of local instructions, unless an allocation fails. Its one procedure has the
/// number of instructions that is written before them.
pub fn next_program(alloc: Global, seed: &mut u64) -> Option<Vec<u8>> {
    let mut code = Code {
        bytes: Vec::new(alloc),
        count: 0,
        is_whole: true,
    };
    code.put(&HEAD);
    code.put(&[0, 0]);
    for register in 0..3 {
        add_int(&mut code, seed, register);
    }
    for register in 3..6 {
        add_text(&mut code, seed, register);
    }
    add_loops(&mut code, seed);
    let Code {
        mut bytes,
        count,
        is_whole,
    } = code;
    *bytes.get_mut(HEAD.len() + 1)? = count;
    if is_whole { Some(bytes) } else { None }
}
