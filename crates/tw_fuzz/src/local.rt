//! Random local instructions. Value registers 0, 2 and 3 are ints, 1 and 4 are texts.

use crate::code::Code;
use crate::draw::draw;

/// The line of a procedure's value registers.
pub const REGISTERS: &str = "regs int text int int text\n";

const INTS: [u8; 3] = [0, 2, 3];

const TEXTS: [u8; 2] = [1, 4];

const NUMBERS: [&str; 6] = ["0", "1", "2", "-3", "7", "9223372036854775807"];

const WORDS: [&str; 4] = ["\"\"", "\"7\"", "\"-12\"", "\"ab\\n\""];

const OPERATIONS: [&str; 8] = [
    "AND",
    "OR",
    "XOR",
    "SHL",
    "SHR",
    "WMUL",
    "WADD",
    "MULDIV v0",
];

/// Returns a random value register of type int.
pub fn int(seed: &mut u64) -> u8 {
    INTS[usize::from(draw(seed, 3)) % 3]
}

/// Returns a random value register of type text.
pub fn text(seed: &mut u64) -> u8 {
    TEXTS[usize::from(draw(seed, 2)) % 2]
}

/// Writes an INT with a random number.
fn put_int(code: &mut Code, seed: &mut u64) {
    code.line("INT v# ", &[int(seed)], &[]);
    code.put(NUMBERS[usize::from(draw(seed, 6)) % 6]);
    code.put("\n");
}

/// Writes a TEXT with a random word.
fn put_text(code: &mut Code, seed: &mut u64) {
    code.line("TEXT v# ", &[text(seed)], &[]);
    code.put(WORDS[usize::from(draw(seed, 4)) % 4]);
    code.put("\n");
}

/// Writes a random local instruction that may skip the next one, and that one.
fn put_choice(code: &mut Code, seed: &mut u64) {
    match draw(seed, 3) {
        0 => code.line("JLT v# v#", &[int(seed), int(seed)], &[]),
        1 => code.line("JEQ v# v#", &[text(seed), text(seed)], &[]),
        _ => code.line("READI v# v#", &[int(seed), text(seed)], &[]),
    }
    code.put(" +1\n");
    put_int(code, seed);
}

/// Writes a random instruction on parts of texts that may skip the next one, and that one.
fn put_part(code: &mut Code, seed: &mut u64) {
    let (first, second) = (text(seed), text(seed));
    let (start, end, to) = (int(seed), int(seed), int(seed));
    match draw(seed, 6) {
        0 => code.line("BYTE v# v# v#", &[to, first, start], &[]),
        1 => code.line("SLICE v# v# v# v#", &[second, first, start, end], &[]),
        2 => code.line("FIND v# v# v# v#", &[to, first, second, start], &[]),
        3 => code.line("SPAN v# v# v# v#", &[to, first, second, start], &[]),
        4 => code.line("UNTIL v# v# v# v#", &[to, first, second, start], &[]),
        _ => code.line("JTLT v# v#", &[first, second], &[]),
    }
    code.put(" +1\n");
    put_int(code, seed);
}

/// Writes a random operation of version 5 on ints.
fn put_operation(code: &mut Code, seed: &mut u64) {
    code.put(OPERATIONS[usize::from(draw(seed, 8)) % 8]);
    code.line(" v# v# v#", &[int(seed), int(seed), int(seed)], &[]);
    code.put(" +0\n");
}

/// Writes one or two random local instructions.
pub fn put_local(code: &mut Code, seed: &mut u64) {
    match draw(seed, 13) {
        0 | 1 => put_int(code, seed),
        2 => put_text(code, seed),
        3 => code.line("ADD v# v# v# +0\n", &[int(seed), int(seed), int(seed)], &[]),
        4 => code.line("MUL v# v# v# +0\n", &[int(seed), int(seed), int(seed)], &[]),
        5 => code.line("DIV v# v# v# +0\n", &[int(seed), int(seed), int(seed)], &[]),
        6 => code.line(
            "CAT v# v# v# +0\n",
            &[text(seed), text(seed), text(seed)],
            &[],
        ),
        7 => code.line("SHOW v# v#\n", &[text(seed), int(seed)], &[]),
        8 => code.line("LEN v# v#\n", &[int(seed), text(seed)], &[]),
        9 | 10 => put_part(code, seed),
        11 => put_operation(code, seed),
        _ => put_choice(code, seed),
    }
}
