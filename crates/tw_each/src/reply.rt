//! How a program becomes ready to run on lines, or the reply that rejects it.

ghost use Rattle.std.specs.Prelude.{IfOk};
ghost use Rattle.tw_program_output.specs.ErrorJson.{IsJsonReply};
ghost use Rattle.tw_source.specs.Reply.{reply};
ghost use Rattle.tw_each.specs.Ready.{IsReady};
ghost use Rattle.tw_each.specs.Reply.{IsTooLongReply};

use crate::answer::EachRun;
use crate::lines::too_long;
use std::alloc::{AllocError, Global};
use tw_order::{EachOrder, Places, Source};
use tw_program_output::{Admitted, admit, error_line};
use tw_source::{ReadProgram, Reply, failed_reply, parse_error_reply, read_program};

/// Returns an error's reply as a JSON object.
pub(crate) fn json_reply(alloc: Global, error: Reply) -> Result<Reply, AllocError>
    ensures { IfOk result (λ r. IsJsonReply (reply error.text.items error.close) (reply r.text.items r.close)) }
{
    let line = error_line(alloc, &error)?;
    Ok(Reply {
        text: line.into_bytes(),
        close: error.close,
        more: None,
    })
}

/// A program that may be run on lines, and how; or the JSON object that rejects it.
#[derive(Drop)]
pub(crate) enum Ready<'a> {
    Run(EachRun<'a>),
    Rejected(Reply),
}

/// Reads a program, verifies it, and compares its bounds with their caps.
pub(crate) fn read_ready<'a>(
    alloc: Global,
    source: Source,
    order: &EachOrder,
    input: &'a [u8],
) -> Result<Ready<'a>, AllocError>
    ensures { IfOk result (IsReady source order.now input.entry.now) }
{
    match read_program(alloc, source, input) {
        Ok(read) => {
            let ReadProgram { program, source } = read;
            let (places, limit) = (Places::Hidden, Some(order.limit));
            match admit(alloc, &source, places, limit, order.caps, program)? {
                Admitted::Run(verified) => Ok(Ready::Run(EachRun {
                    source,
                    verified,
                    layout: order.layout,
                    limit: order.limit.events(),
                    seconds: order.seconds,
                })),
                Admitted::Rejected(error) => {
                    let reply = json_reply(alloc, error)?;
                    Ok(Ready::Rejected(reply))
                }
            }
        }
        Err(why) => {
            let error = parse_error_reply(alloc, &why)?;
            let reply = json_reply(alloc, error)?;
            Ok(Ready::Rejected(reply))
        }
    }
}

/// Returns the reply to a program, or a program with its lines, of too many bytes.
pub fn too_long_reply(alloc: Global) -> Result<Reply, AllocError>
    ensures { IfOk result (λ r. IsTooLongReply (reply r.text.items r.close)) }
{
    let error = failed_reply(alloc, too_long())?;
    json_reply(alloc, error)
}
