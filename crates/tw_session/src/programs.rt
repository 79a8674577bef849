//! The work that is left of an order, and runs of programs that are admitted.

ghost use Rattle.std.specs.Prelude.{IfOk};
ghost use Rattle.tw_session.specs.ProgramAction.{Awaits};
ghost use Rattle.tw_session.specs.Session.{RepliesIfRun, run_with};
ghost use Rattle.tw_source.specs.Source.{MayBeSource, text_of};

use std::alloc::{AllocError, Global};
use tw_code::Program;
use tw_order::{EachOrder, Places, RunOptions, RunOrder, Source};
use tw_program_output::{Admitted, admit};
use tw_source::{Reply, SourceText};
use tw_types::{Input, Items};
use tw_verify::Verified;

/// An accepted program that is to be run, with the text from which it was read, if from any, and its order.
#[derive(Drop)]
pub struct RunRequest<'a> {
    pub source: Option<SourceText<'a>>,
    pub order: RunOrder,
    pub verified: Verified,
}

/// The rest of an order: a reply, or a run.
#[derive(Drop)]
pub enum Prepared<'a> {
    /// Nothing but to reply.
    Finished(Reply),
    /// To run a program.
    Run(RunRequest<'a>),
    /// To run a program on the lines after it.
    Lines(Source, EachOrder, &'a [u8]),
}

/// Verifies a program that was read from this text, if from any, and prepares its run if it is admitted.
pub fn prepare_run<'a>(
    alloc: Global,
    source: Option<SourceText<'a>>,
    options: RunOptions,
    inputs: Items<Input>,
    program: Program,
) -> Result<Prepared<'a>, AllocError>
    requires { MayBeSource source program.procedures }
    ensures { IfOk result (Awaits (RepliesIfRun (text_of source.entry) (run_with options inputs) program)) }
{
    let (places, limit) = (Places::Hidden, Some(options.limit));
    match admit(alloc, &source, places, limit, options.caps, program)? {
        Admitted::Run(verified) => {
            let order = RunOrder { options, inputs };
            Ok(Prepared::Run(RunRequest {
                source,
                order,
                verified,
            }))
        }
        Admitted::Rejected(reply) => Ok(Prepared::Finished(reply)),
    }
}
