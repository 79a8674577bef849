//! Texts for what was due at a word, and for its limits.

use tw_asm::Due;
use tw_code::Form;

/// Returns the words by which a diagnostic names the operand that was due.
fn operand_text(form: Form) -> &'static str {
    match form {
        Form::Value => "a value register",
        Form::Right => "a right register",
        Form::Number => "a whole number",
        Form::Iterations => "a number of iterations",
        Form::Callee => "a procedure's number",
        Form::Literal => "a quoted text",
        Form::Skip => "a label or +n",
        Form::TypeOf => "a type",
        Form::Target => "any or an actor's number",
        Form::Args => "an argument, the number of a register",
    }
}

/// Returns the words by which a diagnostic names the limit of an operand.
fn operand_limit(form: Form) -> &'static str {
    match form {
        Form::Value => "v0 to v15",
        Form::Right => "d0 to d15",
        Form::Number => "-9223372036854775808 to 9223372036854775807",
        Form::Iterations => "1 to 1000",
        Form::Callee => "0 to 255",
        Form::Literal => "4096 bytes",
        Form::Skip => "64 bytes and +65535",
        Form::TypeOf => "3 containers",
        Form::Target => "0 to 15",
        Form::Args => "8 arguments, each 0 to 15",
    }
}

/// Returns the words by which a diagnostic names what was due.
pub(crate) fn due_text(due: Due) -> &'static str {
    match due {
        Due::Start => "proc or version",
        Due::Head => "proc",
        Due::Registers => "regs",
        Due::Body(_) => "proc, a label or an instruction",
        Due::Operand(form) => operand_text(form),
        Due::Version => "a version's number",
        Due::Kind => "control or leaf",
        Due::Param => "a mode (val, closed, ref or write)",
        Due::ParamType => "a type",
        Due::Values => "int, text or sum",
        Due::ParamScalar | Due::Register => "int or text",
        Due::Label => "a label of this procedure",
        Due::NewLabel => "a new label",
        Due::LaterLabel => "a label after this line",
        _ => "the end of the line",
    }
}

/// Returns the words by which a diagnostic names the limit of a word.
pub(crate) fn limit_of(due: Due) -> &'static str {
    match due {
        Due::Operand(form) => operand_limit(form),
        Due::Version => "1, 2, 4 or 5",
        Due::Param => "8 parameters",
        Due::ParamType => "3 containers",
        Due::Register => "16 registers",
        Due::Name => "64 bytes",
        _ => "one word",
    }
}

/// Returns what a procedure or a text needs, or has too many of, if a limit is at no word.
pub(crate) fn whole_limit(due: Due) -> Option<&'static str> {
    match due {
        Due::Instruction => Some("the procedure has no instruction"),
        Due::Procedures => Some("64 procedures come before it"),
        Due::Instructions => Some("4096 instructions come before it"),
        Due::Procedure => Some("the text has no procedure"),
        _ => None,
    }
}
