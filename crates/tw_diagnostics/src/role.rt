//! Roles of lines by their first words.

ghost use Rattle.std.specs.Prelude.{◌≡◌, ◌∷◌, [], Option, None, Some, IfOk, List, MatchOption, false, map};
ghost use Rattle.std.specs.Str.Lines.{lines};
ghost use Rattle.tw_lexer.specs.Seen.{seen};
ghost use Rattle.tw_asm.specs.Fault.{HasStatement, HaveStatements, ParserState, at_start};
ghost use Rattle.tw_asm.specs.Statement.{EncodesInLimits, Statement};
ghost use Rattle.tw_code.specs.declared.version.Version.{Version};
ghost use Rattle.tw_diagnostics.specs.FirstHead.{HasNoHead, IsFirstHead, is_head};

use std::alloc::{AllocError, Global};
use tw_asm::is_plainly_blank;
use tw_lexer::{Word, before_colon, words_of};

/// A role of a line that can follow the lines before it.
#[derive(Clone, Copy)]
pub enum LineRole {
    /// A procedure begins in the line.
    Head,
    /// The line is an instruction.
    Code,
    /// Another statement, or none.
    Other,
}

/// Returns the role of a line with this first word.
fn word_role(first: &[u8]) -> LineRole {
    if first == b"proc".as_slice() {
        LineRole::Head
    } else if first == b"version".as_slice()
        || first == b"regs".as_slice()
        || before_colon(first).is_some()
    {
        LineRole::Other
    } else {
        LineRole::Code
    }
}

/// Returns the role of a line with these words; one that begins with a quoted text counts as code.
fn role_of(words: &[Word<'_>]) -> LineRole {
    match words {
        [] => LineRole::Other,
        [first, ..] => match first {
            Word::Bare(word) => word_role(word),
            Word::Quoted(_) => LineRole::Code,
        },
    }
}

/// Returns the role of a line, if it can follow the lines before it.
pub fn line_role(alloc: Global, line: &str) -> Result<LineRole, AllocError> {
    if is_plainly_blank(line) {
        return Ok(LineRole::Other);
    }
    let read = words_of(alloc, line.as_bytes())?;
    Ok(role_of(&read.words))
}

/// Returns whether a line with these words begins a procedure, if they are a statement.
fn are_head(words: &[Word<'_>]) -> bool
    ensures nothing { words.now ≡ [] → result ≡ false }
    ensures says { (version : Version) (statement : Statement) → EncodesInLimits version statement (map seen words.now) → result ≡ is_head (Some statement) }
{
    match words {
        [] => false,
        [first, ..] => match first {
            Word::Bare(word) => *word == b"proc".as_slice(),
            Word::Quoted(_) => false,
        },
    }
}

/// Returns whether a line begins a procedure, if it can follow the lines before it.
fn is_head(alloc: Global, line: &str) -> Result<bool, AllocError>
    ensures { IfOk result (λ head. (s : ParserState) (said : Option Statement) → HasStatement s line.now said → head ≡ is_head said) }
{
    if is_plainly_blank(line) {
        return Ok(are_head(&[]));
    }
    let read = words_of(alloc, line.as_bytes())?;
    Ok(are_head(&read.words))
}

/// Returns the number of the line that begins a text's first procedure, from 1, if there is one.
pub fn head_line(alloc: Global, text: &str) -> Result<Option<usize>, AllocError>
    ensures { IfOk result (λ found. (said : List (Option Statement)) → HaveStatements 1 at_start (lines text.now) said → MatchOption found (HasNoHead said) (IsFirstHead text.now)) }
{
    for (index, line) in text.lines().enumerate() {
        let begins = is_head(alloc, line)?;
        if begins {
            return Ok(Some(index + 1));
        }
    }
    Ok(None)
}
