//! Output of `asm`: a program in hex, or expanded text.

ghost use Rattle.std.specs.Prelude.{IfOk};
ghost use Rattle.tw_order.specs.declared.order.Source.TheVariants.{Assembly};
ghost use Rattle.tw_program_output.specs.Assembled.{IsFaultReply, IsWritten, RepliesByAssembling, RepliesByText};
ghost use Rattle.tw_source.specs.Program.{RepliesBySource};
ghost use Rattle.tw_source.specs.Reply.{reply};

use std::alloc::{AllocError, Global};
use tw_asm::{AsmFault, assemble};
use tw_binary::encode;
use tw_code::Program;
use tw_diagnostics::{error_word, text_reason};
use tw_lexer::put;
use tw_order::{Assembling, Source};
use tw_source::{
    Close, Reply, failed_reply, fault_failure, not_utf8_reply, parse_error_reply, plain_reply,
    read_program,
};

/// Returns a program as hex digits, in one line.
fn hex_reply(alloc: Global, program: &Program) -> Result<Reply, AllocError>
    ensures { IfOk result (λ r. IsWritten program.now (reply r.text.items r.close)) }
{
    let Ok(bytes) = encode(alloc, program) else {
        return Err(AllocError);
    };
    let mut text = hex::encode(alloc, bytes)?.into_bytes();
    put(&mut text, "\n")?;
    Ok(Reply {
        text,
        close: Close::Success,
        more: None,
    })
}

/// Returns the line of a text's first fault.
fn fault_reply(alloc: Global, text: &str, fault: AsmFault) -> Result<Reply, AllocError>
    ensures { IfOk result (λ r. IsFaultReply fault.no fault.line (reply r.text.items r.close)) }
{
    let reason = text_reason(alloc, text, fault)?;
    failed_reply(alloc, fault_failure(fault, error_word(&reason)))
}

/// Returns the program of an assembly text as hex digits, or the text's first fault.
fn text_reply(alloc: Global, text: &str) -> Result<Reply, AllocError>
    ensures { IfOk result (λ r. RepliesByText text.now IsWritten (reply r.text.items r.close)) }
{
    match assemble(alloc, text) {
        Ok(program) => hex_reply(alloc, &program),
        Err(fault) => match fault.no {
            tw_asm::FaultNo::NoMemory => Err(AllocError),
            _ => fault_reply(alloc, text, fault),
        },
    }
}

/// Like `text_reply`, for bytes that may not be UTF-8.
fn written_reply(alloc: Global, input: &[u8]) -> Result<Reply, AllocError>
    ensures { IfOk result (λ r. RepliesByText input.now IsWritten (reply r.text.items r.close)) }
{
    match str::from_utf8(input) {
        Ok(text) => text_reply(alloc, text),
        Err(_) => not_utf8_reply(alloc),
    }
}

/// Returns the program of a text that may be symbolic as hex digits, or why there is none.
fn named_reply(alloc: Global, input: &[u8]) -> Result<Reply, AllocError>
    ensures { IfOk result (λ r. RepliesBySource Assembly input.now IsWritten (reply r.text.items r.close)) }
{
    match read_program(alloc, Source::Assembly, input) {
        Ok(read) => hex_reply(alloc, &read.program),
        Err(why) => parse_error_reply(alloc, &why),
    }
}

/// Returns what is assembled, or why nothing is.
pub fn assembled_reply(alloc: Global, what: Assembling, input: &[u8]) -> Result<Reply, AllocError>
    ensures { IfOk result (λ r. RepliesByAssembling what input.now (reply r.text.items r.close)) }
{
    match what {
        Assembling::Text => written_reply(alloc, input),
        Assembling::Names => named_reply(alloc, input),
        Assembling::Plain => plain_reply(alloc, input),
    }
}
