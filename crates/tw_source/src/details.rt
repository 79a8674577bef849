//! Lines after an error's first, and the errors that follow it.

ghost use Rattle.std.specs.Prelude.{◌≡◌, ◌++◌, IfOk};
ghost use Rattle.tw_source.specs.Reply.{reply};
ghost use Rattle.tw_source.specs.declared.close.Close.TheVariants.{Refused};
ghost use Rattle.tw_visible.specs.Visible.{HidesNothing};

use crate::close::Close;
use crate::failure::{Failure, Position, put_further_line};
use crate::reply::Reply;
use std::alloc::{AllocError, Global};
use tw_lexer::put;
use tw_visible::visible_bytes;

/// The greatest number of errors of a text that are reported.
const MOST: usize = 20;

/// The lines after an error's first, of which the last are those of further errors.
#[derive(Drop)]
pub struct Details {
    pub lines: Vec<u8>,
    /// The further errors. Each one's `before` is a number of bytes of `lines`.
    pub more: Vec<Failure>,
}

/// Returns errors that have so many bytes more before their lines.
fn after(mut errors: Vec<Failure>, count: usize) -> Vec<Failure> {
    for error in &mut errors {
        error.before = error.before.saturating_add(count);
    }
    errors
}

impl Details {
    /// Makes details without further errors.
    pub(crate) fn new(alloc: Global, lines: Vec<u8>) -> Details {
        Details {
            lines,
            more: Vec::new(alloc),
        }
    }

    /// Returns whether no error is added any more.
    pub(crate) fn is_full(&self) -> bool {
        MOST <= self.more.len()
    }

    /// Adds an error with its lines after the first. After the greatest number it adds that there are more, and then nothing.
    pub(crate) fn add(
        &mut self,
        alloc: Global,
        failure: Failure,
        lines: &[u8],
    ) -> Result<(), AllocError> {
        if self.is_full() {
            return Ok(());
        }
        let mut error = failure;
        error.before = self.lines.len();
        if self.more.len().saturating_add(1) == MOST {
            error.code = None;
            error.position = Position::Nowhere;
            put(&mut self.lines, "more than 20 errors\n")?;
        } else {
            put_further_line(&mut self.lines, failure)?;
            self.lines.extend_from_slice(lines)?;
        }
        self.more.push(error)?;
        Ok(())
    }

    /// Returns the details without hidden characters. Those of one error have none already.
    pub(crate) fn visible(self, alloc: Global) -> Result<Details, AllocError>
        ensures { IfOk result (λ details. HidesNothing details.lines.items) }
    {
        let Details { lines, more } = self;
        Ok(Details {
            lines: visible_bytes(alloc, &lines)?,
            more,
        })
    }

    /// Returns the reply that rejects with these details after a text, which ends with the first line of the error.
    pub fn reply_after(self, mut text: Vec<u8>, failure: Failure) -> Result<Reply, AllocError>
        ensures { IfOk result (λ r. reply r.text.items r.close ≡ reply (text.items ++ self.lines.items) (Refused failure)) }
    {
        let Details { lines, more } = self;
        let count = text.len();
        text.extend_from_slice(&lines)?;
        Ok(Reply {
            text,
            close: Close::Refused(failure),
            more: Some(after(more, count)),
        })
    }
}
