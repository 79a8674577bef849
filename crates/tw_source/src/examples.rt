//! Words that encode inputs of the types that main takes.

use std::alloc::{AllocError, Global};
use tw_lexer::put;
use tw_types::{DataType, Param, Scalar};

/// Returns a word that encodes an int or a text.
fn scalar_word(scalar: Scalar) -> &'static str {
    match scalar {
        Scalar::Int => "int:7",
        Scalar::Text => "text:abc",
    }
}

/// Returns a word that encodes a container, by whether its subscripts are texts.
fn container_word(by_text: bool, scalar: Scalar) -> &'static str {
    match (by_text, scalar) {
        (false, Scalar::Int) => "ints:1=7",
        (false, Scalar::Text) => "texts:1=\"abc\"",
        (true, Scalar::Int) => "tints:\"key\"=7",
        (true, Scalar::Text) => "ttexts:\"key\"=\"abc\"",
    }
}

/// Returns a word that encodes an input of this type. No word encodes containers of containers.
pub fn example_word(ty: DataType) -> &'static str {
    if ty.is_scalar() {
        scalar_word(ty.scalar())
    } else if ty.is_flat() {
        container_word(ty.has_subscripts_by(Scalar::Text), ty.scalar())
    } else {
        "(none)"
    }
}

/// Adds a word for a parameter if it takes an input, between these two texts.
fn put_example(
    out: &mut Vec<u8>,
    param: &Param,
    before: &str,
    after: &str,
) -> Result<(), AllocError> {
    if param.mode.is_write() {
        return Ok(());
    }
    put(out, before)?;
    put(out, example_word(param.ty))?;
    put(out, after)
}

/// Adds a word for each parameter that takes an input, between these two texts.
pub fn put_examples(
    out: &mut Vec<u8>,
    params: &[Param],
    before: &str,
    after: &str,
) -> Result<(), AllocError> {
    for param in params {
        put_example(out, param, before, after)?;
    }
    Ok(())
}

/// Returns a line for each input that main takes: a word that encodes one.
pub fn example_lines(alloc: Global, params: &[Param]) -> Result<Vec<u8>, AllocError> {
    let mut text = Vec::new(alloc);
    put_examples(&mut text, params, "", "\n")?;
    Ok(text)
}
