//! Cases of bytes and programs that aren't run.

use crate::calls::is_verdict;
use std::alloc::Global;
use tw_binary::decode;
use tw_case_lines::{Complaint, Text, read_program, with_bytes};
use tw_verify::verify;

/// Returns the output of a case that decodes bytes: `program`, or the fault's text.
pub fn decode_text(alloc: Global, bytes: &[u8]) -> Result<String, Complaint> {
    let mut text = Text::new(alloc);
    match decode(alloc, bytes) {
        Ok(program) => {
            text.put("program");
            with_bytes(alloc, text, &program, bytes)
        }
        Err(fault) => {
            text.display(&fault);
            let named = (b'F', fault.no.number());
            text.put_other(is_verdict(alloc, bytes, named, (0, 0), (0, fault.offset)));
            text.into_line()
        }
    }
}

/// Returns how many prefixes of a program's bytes are rejected for missing bytes; or the first prefix with another result.
pub fn prefixes_text(alloc: Global, bytes: &[u8]) -> Result<String, Complaint> {
    let mut text = Text::new(alloc);
    for length in 0..bytes.len() {
        let mut lacking = Text::new(alloc);
        lacking.number("F03 at byte ", length as u64);
        let printed = decode_text(alloc, &bytes[..length])?;
        if printed.as_str() != lacking.into_line()?.as_str() {
            text.number("of bytes ", length as u64);
            text.put(": ");
            text.put(printed.as_str());
            return text.into_line();
        }
    }
    text.number("", bytes.len() as u64);
    text.put(" lack bytes at their end");
    text.into_line()
}

/// Returns the output of a case that verifies a program: `accepted`, or the error's text. The program is returned in both cases.
pub fn verify_text(alloc: Global, bytes: &[u8]) -> Result<String, Complaint> {
    let mut text = Text::new(alloc);
    match verify(alloc, read_program(alloc, bytes)?) {
        Ok(verified) => {
            text.put("accepted");
            let is_so = is_verdict(alloc, bytes, (0, 0), verified.needs(), (0, 0));
            text.put_other(is_so);
            with_bytes(alloc, text, verified.program(), bytes)
        }
        Err(refused) => {
            text.display(&refused);
            let named = (b'V', refused.no.number());
            let at = (refused.procedure, refused.place);
            text.put_other(is_verdict(alloc, bytes, named, (0, 0), at));
            with_bytes(alloc, text, &refused.program, bytes)
        }
    }
}
