//! The programs of cases.

use crate::complaint::Complaint;
use crate::text::Text;
use std::alloc::Global;
use tw_binary::{decode, encode};
use tw_code::Program;
use tw_types::{DataType, Scalar};
use tw_verify::{Verified, verify};

/// Decodes the program of a case.
pub fn read_program(alloc: Global, bytes: &[u8]) -> Result<Program, Complaint> {
    match decode(alloc, bytes) {
        Ok(program) => Ok(program),
        Err(_) => Err(Complaint::NoProgram),
    }
}

/// Returns a case's output, with a complaint if its program has another encoding than these bytes.
pub fn with_bytes(
    alloc: Global,
    mut text: Text,
    program: &Program,
    bytes: &[u8],
) -> Result<String, Complaint> {
    match encode(alloc, program) {
        Ok(spelled) if spelled.as_slice() == bytes => {}
        Ok(_) => text.put(" but the program is another one"),
        Err(_) => text.lose(),
    }
    text.into_line()
}

/// Decodes and verifies the program of a case.
pub fn read_verified(alloc: Global, bytes: &[u8]) -> Result<Verified, Complaint> {
    match verify(alloc, read_program(alloc, bytes)?) {
        Ok(verified) => Ok(verified),
        Err(_) => Err(Complaint::Refused),
    }
}

/// Adds a type to a case's output as `cont tcont int`.
pub fn put_type(text: &mut Text, ty: DataType) {
    let mut inner = ty;
    for _ in 0..DataType::MAX_DEPTH {
        if let Some(element) = inner.element() {
            text.put(if inner.is_container_by(Scalar::Text) {
                "tcont "
            } else {
                "cont "
            });
            inner = element;
        }
    }
    if let Some(by) = inner.map_by() {
        text.put(match by {
            Scalar::Int => "map ",
            Scalar::Text => "tmap ",
        });
    }
    text.put(match inner.scalar() {
        _ if inner.has_sums() => "sum",
        Scalar::Int => "int",
        Scalar::Text => "text",
    });
}
