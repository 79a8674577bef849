//! Random programs, as text.

use crate::code::Code;
use crate::data::{put_all_spent, put_data};
use crate::draw::draw;
use crate::local::{int, put_local};
use crate::put_calls::put_call;
use crate::signature::Signature;
use std::alloc::{AllocError, Global};

/// A program as text, and main's parameters.
#[derive(Drop)]
pub struct Drawn {
    pub text: Vec<u8>,
    pub main: Signature,
}

/// Returns the number of a random procedure to call, mostly a later one.
fn callee(seed: &mut u64, signatures: &[Signature], caller: u8) -> u8 {
    let count = signatures.len() as u64;
    let remaining = count.saturating_sub(u64::from(caller)).saturating_sub(1);
    if remaining == 0 || draw(seed, 12) == 0 {
        return draw(seed, count.max(1));
    }
    caller
        .wrapping_add(1)
        .wrapping_add(draw(seed, remaining.max(1)))
}

/// Writes a RULE or PUT of some procedure.
fn put_next_call(code: &mut Code, seed: &mut u64, signatures: &[Signature], caller: u8) {
    let number = callee(seed, signatures, caller);
    if let Some(callee) = signatures.get(usize::from(number)) {
        put_call(code, seed, number, callee);
    }
}

/// Writes one or a few instructions. They may be calls if the procedure may call.
fn put_next(code: &mut Code, seed: &mut u64, signatures: &[Signature], caller: u8, may_call: bool) {
    match draw(seed, 9) {
        0 | 1 => put_local(code, seed),
        2 | 3 | 4 if may_call => put_next_call(code, seed, signatures, caller),
        _ => put_data(code, seed),
    }
}

/// Writes some instructions in a loop or after a skip, which don't change the rights held before.
fn put_block(
    code: &mut Code,
    seed: &mut u64,
    signatures: &[Signature],
    caller: u8,
    may_call: bool,
) {
    let before = code.begin_block();
    for _step in 0..draw(seed, 4).wrapping_add(1) {
        put_next(code, seed, signatures, caller, may_call);
    }
    put_all_spent(code, seed);
    code.end_block(before);
}

/// Writes some instructions, in a loop, after a skip, or one alone.
fn put_step(code: &mut Code, seed: &mut u64, signatures: &[Signature], caller: u8, may_call: bool) {
    match draw(seed, 8) {
        0 => {
            code.line("REPEAT #\n", &[draw(seed, 4).wrapping_add(1)], &[]);
            put_block(code, seed, signatures, caller, may_call);
            code.put("END\n");
        }
        1 => {
            let label = code.next_label();
            code.line("JEQ v# v# L@\n", &[int(seed), int(seed)], &[label]);
            put_block(code, seed, signatures, caller, may_call);
            code.line("L@:\n", &[], &[label]);
        }
        _ => put_next(code, seed, signatures, caller, may_call),
    }
}

/// Writes one random procedure. Now and then rights are left, and the program is rejected.
fn put_procedure(
    code: &mut Code,
    seed: &mut u64,
    signatures: &[Signature],
    number: u8,
    signature: &Signature,
) {
    signature.put_head(code);
    for _step in 0..draw(seed, 9).wrapping_add(1) {
        put_step(code, seed, signatures, number, !signature.is_leaf);
    }
    if draw(seed, 60) > 0 {
        put_all_spent(code, seed);
    }
    code.put("RET\n");
}

/// Returns the random signatures of main, and of one to six other procedures.
fn next_signatures(
    alloc: Global,
    seed: &mut u64,
    main: Signature,
) -> Result<Vec<Signature>, AllocError> {
    let mut signatures = Vec::new(alloc);
    signatures.push(main)?;
    for _procedure in 0..draw(seed, 6).wrapping_add(1) {
        signatures.push(Signature::next(seed))?;
    }
    Ok(signatures)
}

/// Returns the next random program of the sequence, unless an allocation fails.
pub fn next_program(alloc: Global, seed: &mut u64) -> Option<Drawn> {
    let main = Signature::next_main(seed);
    let signatures = next_signatures(alloc, seed, main).ok()?;
    let mut code = Code::new(alloc);
    code.put("version 5\n");
    let mut number: u8 = 0;
    for signature in &signatures {
        put_procedure(&mut code, seed, &signatures, number, signature);
        number = number.wrapping_add(1);
    }
    let text = code.into_text()?;
    Some(Drawn { text, main })
}
