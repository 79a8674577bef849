//! Random inputs and layouts.

use crate::draw::draw;
use crate::rights::Ty;
use crate::signature::Signature;
use std::alloc::{AllocError, Global};
use tw_types::{Input, InputText, Items, Layout};
use tw_verify::Verified;

/// Returns one of four short texts for a random input.
fn next_text(alloc: Global, seed: &mut u64) -> Result<InputText, AllocError> {
    let words = ["", "7", "two", "-3"];
    let word = words[usize::from(draw(seed, 4)) % 4];
    Ok(InputText::from(word.to_string(alloc)?))
}

/// Returns up to four random integers by rising integers, the members of an input.
fn next_ints(alloc: Global, seed: &mut u64) -> Result<Items<(i64, i64)>, AllocError> {
    let mut pairs = Vec::new(alloc);
    let mut subscript: i64 = -3;
    for _member in 0..draw(seed, 5) {
        subscript = subscript
            .wrapping_add(i64::from(draw(seed, 3)))
            .wrapping_add(1);
        pairs.push((subscript, i64::from(draw(seed, 20))))?;
    }
    Ok(Items::from(pairs))
}

/// Returns up to three random texts by rising integers, the members of an input.
fn next_texts(alloc: Global, seed: &mut u64) -> Result<Items<(i64, InputText)>, AllocError> {
    let mut pairs = Vec::new(alloc);
    let mut subscript: i64 = -3;
    for _member in 0..draw(seed, 4) {
        subscript = subscript
            .wrapping_add(i64::from(draw(seed, 3)))
            .wrapping_add(1);
        let text = next_text(alloc, seed)?;
        pairs.push((subscript, text))?;
    }
    Ok(Items::from(pairs))
}

/// Texts that rise by their bytes; the programs use them too.
const SUBSCRIPTS: [&str; 4] = ["", "-12", "7", "ab\n"];

/// Returns random integers by some of four texts, the members of an input.
fn next_words(alloc: Global, seed: &mut u64) -> Result<Items<(InputText, i64)>, AllocError> {
    let mut pairs = Vec::new(alloc);
    for subscript in &SUBSCRIPTS {
        if draw(seed, 2) == 0 {
            let text = InputText::from(subscript.to_string(alloc)?);
            pairs.push((text, i64::from(draw(seed, 20))))?;
        }
    }
    Ok(Items::from(pairs))
}

/// Returns random texts by some of four texts, the members of an input.
fn next_names(alloc: Global, seed: &mut u64) -> Result<Items<(InputText, InputText)>, AllocError> {
    let mut pairs = Vec::new(alloc);
    for subscript in &SUBSCRIPTS {
        if draw(seed, 2) == 0 {
            let text = InputText::from(subscript.to_string(alloc)?);
            let name = next_text(alloc, seed)?;
            pairs.push((text, name))?;
        }
    }
    Ok(Items::from(pairs))
}

/// Returns a random input of a type for a parameter of main.
fn next_input(alloc: Global, seed: &mut u64, ty: Ty) -> Result<Input, AllocError> {
    match ty {
        Ty::Int => Ok(Input::Int(i64::from(draw(seed, 9)))),
        Ty::Text => Ok(Input::Text(next_text(alloc, seed)?)),
        Ty::Texts => Ok(Input::Texts(next_texts(alloc, seed)?)),
        Ty::Words => Ok(Input::IntsByText(next_words(alloc, seed)?)),
        Ty::Names => Ok(Input::TextsByText(next_names(alloc, seed)?)),
        Ty::Ints | Ty::Rows | Ty::Tables => Ok(Input::Ints(next_ints(alloc, seed)?)),
    }
}

/// Returns random inputs for main's parameters that take one.
pub fn next_inputs(
    alloc: Global,
    seed: &mut u64,
    main: &Signature,
) -> Result<Vec<Input>, AllocError> {
    let mut inputs = Vec::new(alloc);
    for right in main.rights() {
        if !right.is_write() {
            let input = next_input(alloc, seed, right.ty)?;
            inputs.push(input)?;
        }
    }
    Ok(inputs)
}

/// Returns a random layout with all targets of a random program.
pub fn next_layout(seed: &mut u64, verified: &Verified) -> Option<Layout> {
    let (engines, workers) = verified.needs();
    let engines = engines.max(draw(seed, 4).wrapping_add(1));
    let workers = workers.max(draw(seed, 16).wrapping_add(1));
    Layout::new(engines, draw(seed, 4).wrapping_add(1), workers).ok()
}
