//! Replies of a session.

ghost use Rattle.std.specs.Prelude.{◌≡◌, IfOk};
ghost use Rattle.tw_source.specs.Failure.{coded, failed, failed_with};
ghost use Rattle.tw_source.specs.Reply.{reply};
ghost use Rattle.tw_source.specs.declared.failure.Position.TheVariants as position;

use crate::close::Close;
use crate::failure::{Failure, Position, put_failure_line};
use std::alloc::{AllocError, Global};
use tw_lexer::put;

/// The output of a session, and how it ends.
#[derive(Drop)]
pub struct Reply {
    pub text: Vec<u8>,
    pub close: Close,
    /// The errors after the first, if there are any. Their lines are the text's last.
    pub more: Option<Vec<Failure>>,
}

/// Returns the reply that rejects with this text, of this error.
pub fn refused_by(text: Vec<u8>, failure: Failure) -> Reply
    ensures { reply result.text.items result.close ≡ reply text.items (Close.Refused failure) }
{
    Reply {
        text,
        close: Close::Refused(failure),
        more: None,
    }
}

/// Returns the reply with this text, which ends the session so.
pub fn fixed_reply(alloc: Global, line: &str, close: Close) -> Result<Reply, AllocError>
    ensures { IfOk result (λ r. reply r.text.items r.close ≡ reply line.now close) }
{
    let mut text = Vec::new(alloc);
    put(&mut text, line)?;
    Ok(Reply {
        text,
        close,
        more: None,
    })
}

/// Returns the reply that has only the first line of an error.
pub fn failed_reply(alloc: Global, failure: Failure) -> Result<Reply, AllocError>
    ensures { IfOk result (λ r. reply r.text.items r.close ≡ failed failure) }
{
    let mut text = Vec::new(alloc);
    put_failure_line(&mut text, failure)?;
    Ok(refused_by(text, failure))
}

/// Returns the reply that has the first line of an error, and these lines after it.
pub fn detailed_reply(alloc: Global, failure: Failure, details: &[u8]) -> Result<Reply, AllocError>
    ensures { IfOk result (λ r. reply r.text.items r.close ≡ failed_with failure details.now) }
{
    let mut text = Vec::new(alloc);
    put_failure_line(&mut text, failure)?;
    text.extend_from_slice(details)?;
    Ok(refused_by(text, failure))
}

/// Returns the reply to bytes that are to be text and aren't UTF-8.
pub fn not_utf8_reply(alloc: Global) -> Result<Reply, AllocError>
    ensures { IfOk result (λ r. reply r.text.items r.close ≡ failed (coded 72 3 position.Nowhere)) }
{
    failed_reply(alloc, Failure::coded(b'H', 3, Position::Nowhere))
}
