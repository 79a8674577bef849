//! Random accepted programs, with everything on which their runs depend, except the order of events.

ghost use Rattle.std.specs.Prelude.{IfSome};
ghost use Rattle.tw_code.specs.machine.Bounds.{AreBelow, opening_bound};

use crate::draw::{draw, seed_of};
use crate::inputs::{next_inputs, next_layout};
use crate::programs::{Drawn, next_program};
use std::alloc::Global;
use tw_asm::assemble;
use tw_code::Program;
use tw_machine::Plain;
use tw_types::{Input, Layout};
use tw_verify::{Verified, verify};

/// An accepted program with its text, its inputs, and the limit of events of its run.
#[derive(Drop)]
pub struct Case {
    text: Vec<u8>,
    pub verified: Verified,
    pub inputs: Vec<Input>,
    pub layout: Layout,
    pub limit: usize,
    /// The seed for the order of scheduling steps.
    pub seed: u64,
}

/// Assembles the text of a random program, if it is one.
fn program_of(alloc: Global, text: &[u8]) -> Option<Program> {
    let Ok(text) = str::from_utf8(text) else {
        return None;
    };
    assemble(alloc, text).ok()
}

impl Case {
    /// Makes the reference machine of a random program's case before its first event.
    pub fn machine(&self, alloc: Global) -> Option<Plain>
        ensures { IfSome result (λ plain. AreBelow opening_bound plain.state) }
    {
        let program = program_of(alloc, &self.text)?;
        match Plain::open(alloc, program, &self.inputs, self.layout) {
            Ok(plain) => Some(plain),
            Err(_) => None,
        }
    }
}

/// Returns the verified program of a random text, with a layout for it, if it is accepted.
fn accepted(alloc: Global, seed: &mut u64, text: &[u8]) -> Option<(Verified, Layout)> {
    let program = program_of(alloc, text)?;
    let verified = verify(alloc, program).ok()?;
    let layout = next_layout(seed, &verified)?;
    Some((verified, layout))
}

/// Returns the program of this number, or `None` if it isn't accepted.
pub fn case_of(alloc: Global, number: u64) -> Option<Case> {
    let mut seed = seed_of(number);
    let Drawn { text, main } = next_program(alloc, &mut seed)?;
    let inputs = next_inputs(alloc, &mut seed, &main).ok()?;
    let (verified, layout) = accepted(alloc, &mut seed, &text)?;
    let limit = usize::from(draw(&mut seed, 250))
        .wrapping_mul(2)
        .wrapping_add(1);
    Some(Case {
        text,
        verified,
        inputs,
        layout,
        limit,
        seed,
    })
}
