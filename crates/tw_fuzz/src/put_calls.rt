//! Random RULE and PUT.

use crate::code::Code;
use crate::data::{put_double, put_new};
use crate::draw::draw;
use crate::local::{int, text};
use crate::rights::{Mode, Right, Want};
use crate::signature::Signature;

const PRIORITIES: [&str; 6] = [
    " 0",
    " 1",
    " -1",
    " 7",
    " 9223372036854775807",
    " -9223372036854775808",
];

/// Returns what an argument of a random RULE or PUT must be for a parameter.
fn wanted(right: Right, is_rule: bool) -> Want {
    match right.mode {
        Mode::Write => Want::Write(right.ty),
        Mode::Ref => Want::Read(right.ty),
        Mode::Closed if is_rule => Want::Read(right.ty),
        Mode::Closed => Want::Closed(right.ty),
    }
}

/// Makes a right for an argument of a random call, from another one or from a new datum. Returns its register.
fn made(code: &mut Code, seed: &mut u64, right: Right, want: Want) -> Option<u8> {
    if !right.is_write() || right.is_container() {
        if let Some(other) = code.find(seed, want) {
            return put_double(code, seed, other);
        }
    }
    if matches!(want, Want::Closed(_)) {
        return None;
    }
    let (writer, reader) = put_new(code, seed, right.ty)?;
    Some(if right.is_write() { writer } else { reader })
}

/// Returns a register for a parameter, which is kept from then on.
fn chosen(code: &mut Code, seed: &mut u64, right: Right, is_rule: bool) -> Option<u8> {
    let want = wanted(right, is_rule);
    let mut register = None;
    if draw(seed, 4) > 0 {
        register = code.find_free(seed, want);
    }
    if register.is_none() {
        register = made(code, seed, right, want);
    }
    code.keep(register?, true);
    register
}

/// The registers of the arguments that are rights, and how many there are.
#[derive(Clone, Copy)]
struct Arguments {
    registers: [u8; 3],
    count: u8,
}

impl Arguments {
    /// Returns the registers that were chosen as arguments of a random call.
    fn given(&self) -> &[u8] {
        &self.registers[..usize::from(self.count) % 4]
    }
}

/// Chooses registers for the arguments of a random call, up to the first parameter without one.
fn choose(code: &mut Code, seed: &mut u64, callee: &Signature, is_rule: bool) -> Arguments {
    let mut arguments = Arguments {
        registers: [0; 3],
        count: 0,
    };
    for right in callee.rights() {
        let Some(register) = chosen(code, seed, *right, is_rule) else {
            return arguments;
        };
        arguments.registers[usize::from(arguments.count) % 3] = register;
        arguments.count = arguments.count.wrapping_add(1);
    }
    arguments
}

/// Writes the name of a random RULE or PUT with a procedure's number, and a priority: one in three is computed.
fn put_name(code: &mut Code, seed: &mut u64, number: u8, is_rule: bool) {
    let is_computed = draw(seed, 3) == 0;
    code.put(if is_rule { "RULE" } else { "PUT" });
    if is_computed {
        code.line("V # v#", &[number, int(seed)], &[]);
    } else {
        code.line(" #", &[number], &[]);
        code.put(PRIORITIES[usize::from(draw(seed, 6)) % 6]);
    }
}

/// Writes the target and the values of a random RULE or PUT.
fn put_values(code: &mut Code, seed: &mut u64, callee: &Signature) {
    if draw(seed, 3) > 0 {
        code.put(" any");
    } else {
        let target = draw(seed, if callee.is_leaf { 5 } else { 3 });
        code.line(" #", &[target], &[]);
    }
    if callee.values > 0 {
        code.line(" #", &[int(seed)], &[]);
    }
    if callee.values > 1 {
        code.line(" #", &[text(seed)], &[]);
    }
}

/// Makes a rule or a task, if there are rights for its parameters or some can be made.
pub fn put_call(code: &mut Code, seed: &mut u64, number: u8, callee: &Signature) {
    let is_rule = draw(seed, 3) > 0;
    let arguments = choose(code, seed, callee, is_rule);
    for register in arguments.given() {
        code.keep(*register, false);
    }
    if arguments.given().len() < callee.rights().len() {
        return;
    }
    put_name(code, seed, number, is_rule);
    put_values(code, seed, callee);
    for register in arguments.given() {
        code.line(" #", &[*register], &[]);
        code.set(*register, None);
    }
    code.put("\n");
}
