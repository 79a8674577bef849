//! Writes single lines.

ghost use Rattle.std.specs.Prelude.{◌≡◌, ◌++◌, OnOk};
ghost use Rattle.tw_report.specs.Lines.{history_line, not_enabled_line, trap_line, value_text};

use std::alloc::AllocError;
use tw_lexer::{put_quoted, put_signed};
pub use tw_lexer::{put, put_numbered};
use tw_types::Value;

/// Appends a value with its type.
pub fn put_value(out: &mut Vec<u8>, value: &Value) -> Result<(), AllocError>
    ensures { OnOk result (out.new.items ≡ out.old.items ++ value_text value.now) }
{
    match value {
        Value::Int(n) => {
            put(out, "int ")?;
            put_signed(out, *n)
        }
        Value::Text(text) => {
            put(out, "text ")?;
            put_quoted(out, text.as_str())
        }
    }
}

/// Appends the line of a run that trapped at an event, counted from 1.
pub fn put_trap_line(out: &mut Vec<u8>, number: u8, event: usize) -> Result<(), AllocError>
    ensures { OnOk result (out.new.items ≡ out.old.items ++ trap_line number event) }
{
    put_numbered(out, "trap C", usize::from(number))?;
    put_numbered(out, " at event ", event)?;
    put(out, "\n")
}

/// Appends the error of a trace with a line that isn't an event. Lines count from 1 after `events`.
pub fn put_history_line(out: &mut Vec<u8>, line: usize) -> Result<(), AllocError>
    ensures { OnOk result (out.new.items ≡ out.old.items ++ history_line line) }
{
    put_numbered(out, "refused E01 at line ", line)?;
    put(out, "\n")
}

/// Appends the error of a trace with an event that isn't enabled. Events count from 1.
pub fn put_not_enabled_line(out: &mut Vec<u8>, event: usize) -> Result<(), AllocError>
    ensures { OnOk result (out.new.items ≡ out.old.items ++ not_enabled_line event) }
{
    put_numbered(out, "not enabled at event ", event)?;
    put(out, "\n")
}
