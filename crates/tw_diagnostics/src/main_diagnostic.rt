//! Finds why a procedure can't be main.

use crate::requirement::put_param;
use std::alloc::{AllocError, Global};
use tw_code::Procedure;
use tw_types::Kind;
use tw_writer::Writer;

/// Adds the first parameter that main may not have.
fn put_params_line(out: &mut Writer, main: &Procedure) {
    for (index, param) in main.params.as_slice().iter().enumerate() {
        if param.mode.is_val() || !param.ty.is_flat() {
            out.put_numbered("parameter ", index.saturating_add(1));
            out.put(" is");
            put_param(out, *param);
            out.put(if param.mode.is_val() {
                ", required: closed, ref or write\n"
            } else {
                ", required: a scalar or a container of scalars\n"
            });
            return;
        }
    }
}

/// Returns the line that says what is wrong with the shape of main.
pub fn shape_text(alloc: Global, main: &Procedure) -> Result<Vec<u8>, AllocError> {
    let mut out = Writer::new(alloc);
    match main.kind {
        Kind::Leaf => out.put("main is a leaf, required: control\n"),
        Kind::Control => put_params_line(&mut out, main),
    }
    out.finish()
}
