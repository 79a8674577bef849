//! The JSON lines of commands that print one text.

ghost use Rattle.std.specs.Prelude.{IfOk, string_bytes};
ghost use Rattle.tw_json_output.specs.Lines.{IsJsonLine};

use crate::object_writer::ObjectWriter;
use std::alloc::{AllocError, Global};

/// The text that `asm` or `disasm` prints.
#[derive(Clone, Copy)]
pub enum Printed {
    /// A program's bytes in hexadecimal digits, and a line feed.
    Digits,
    /// The expanded text of symbolic assembly.
    Plain,
    /// A program's assembly text.
    Text,
    /// A program's listing.
    Listing,
}

/// Returns the status of what is printed.
fn printed_status(printed: Printed) -> &'static str {
    match printed {
        Printed::Digits | Printed::Plain => "assembled",
        Printed::Text | Printed::Listing => "disassembled",
    }
}

/// Returns the JSON line of what `asm` or `disasm` would print.
pub fn printed_line(alloc: Global, printed: Printed, text: &[u8]) -> Result<String, AllocError>
    ensures { IfOk result (λ line. IsJsonLine (string_bytes line)) }
{
    let mut object = ObjectWriter::new(alloc);
    object.put_word("status", printed_status(printed));
    match printed {
        Printed::Digits => object.put_bytes("bytes", &text[..text.len().saturating_sub(1)]),
        Printed::Plain | Printed::Text => object.put_bytes("text", text),
        Printed::Listing => object.put_lines("listing", text),
    }
    object.line()
}

/// Returns the JSON line of the explanation of a code. The list of all codes has an empty code.
pub fn explanation_line(alloc: Global, code: &[u8], text: &[u8]) -> Result<String, AllocError>
    ensures { IfOk result (λ line. IsJsonLine (string_bytes line)) }
{
    let mut object = ObjectWriter::new(alloc);
    object.put_word("status", "explained");
    object.put_bytes("text", text);
    if !code.is_empty() {
        object.put_bytes("code", code);
    }
    object.line()
}
