//! The words of a line, as slices of it.

ghost use Rattle.std.specs.Prelude.{◌≡◌, ◌++◌, ◌∷◌, [], ℕ, List, IfOk, IsUtf8, false};
ghost use Rattle.tw_lexer.specs.Seen.{seen};
ghost use Rattle.tw_lexer.specs.Words.{IsFirstWord};
ghost use Rattle.tw_lexer.specs.reading.Next.{IsAfterGap};
ghost use Rattle.tw_symbols.specs.Answers.{IsFirst, begins_with_p, is_plainly_blank};
ghost use Rattle.tw_symbols.specs.Lines.{IsTaken, Line, StartsWith, line_words};
ghost use Rattle.tw_symbols.specs.Lines.{HasNoHead};
ghost use Rattle.tw_symbols.specs.Seen.{texts};

use std::alloc::{AllocError, Global};
use tw_lexer::{Next, Word, next_word, without_gap};

/// A line: its words, and the rest after the last one.
///
/// Characters that form no word are one more word, the last, up to the line's end.
#[derive(Drop)]
pub struct ParsedLine<'a> {
    pub words: Vec<&'a [u8]>,
    pub rest: &'a [u8],
}

/// The beginning of what is left of a line.
#[derive(Clone, Copy)]
pub enum First<'a> {
    /// A comment, or nothing.
    End,
    /// Something that isn't a word.
    Broken,
    /// A word, and what follows it.
    Text(&'a [u8], &'a [u8]),
}

/// Cuts out the first word of a symbolic line, which `rest` follows, as it is written.
fn cut_word<'a>(bytes: &'a [u8], _word: &Word<'_>, rest: &[u8]) -> &'a [u8]
    requires utf8 { IsUtf8 bytes.now }
    requires first { IsFirstWord (seen _word.now) bytes.now rest.now }
    ensures { StartsWith result.now bytes.entry.now rest.now }
{
    let here = without_gap(bytes);
    let count = here.len() - rest.len();
    let (word, _) = here.split_at(count);
    word
}

/// Returns the first word of a symbolic line as it is written, or why there is none.
fn first_text(alloc: Global, bytes: &[u8]) -> Result<First<'_>, AllocError>
    requires { IsUtf8 bytes.now }
    ensures { IfOk result (λ first. IsFirst first bytes.now) }
{
    match next_word(alloc, bytes)? {
        Next::End => Ok(First::End),
        Next::Broken => Ok(First::Broken),
        Next::Found(word, rest) => Ok(First::Text(cut_word(bytes, &word, rest), rest)),
    }
}

/// Returns a symbolic line that has these words, and then something that isn't a word.
fn broken<'a>(mut words: Vec<&'a [u8]>, rest: &'a [u8]) -> Result<ParsedLine<'a>, AllocError>
    requires { IsUtf8 rest.now }
    ensures { IfOk result (λ taken. (tail : List ℕ) × IsAfterGap rest.entry.now tail × (texts taken.words.items ≡ texts words.entry.items ++ tail ∷ [])) }
{
    words.push(without_gap(rest))?;
    Ok(ParsedLine { words, rest: b"" })
}

/// Returns whether the first byte says that a line of symbolic assembly has no word. Most bytes of a long text may be line ends or
/// begin comments.
pub fn is_plainly_blank(line: &str) -> bool
    ensures { result ≡ is_plainly_blank line.now }
{
    match line.as_bytes() {
        [byte, ..] => *byte == b';',
        [] => true,
    }
}

/// Returns whether a line begins with `p`, as the word `proc` does.
fn begins_with_p(bytes: &[u8]) -> bool
    ensures { result ≡ begins_with_p bytes.now }
{
    match bytes {
        [byte, ..] => *byte == b'p',
        [] => false,
    }
}

/// Returns whether a symbolic line may begin with `proc`. Most lines of a long text don't, and nothing else of them has to be read
/// then.
pub fn may_begin_procedure(line: &str) -> bool
    ensures { result ≡ false → HasNoHead line.now }
{
    begins_with_p(without_gap(line.as_bytes()))
}

/// Splits a line of symbolic assembly into its words, as they are written.
fn take_words(alloc: Global, line: &str) -> Result<ParsedLine<'_>, AllocError>
    ensures { IfOk result (λ taken. (seen : Line) × IsTaken seen line.now × (texts taken.words.items ≡ line_words seen)) }
{
    let mut words = Vec::new(alloc);
    let mut rest = line.as_bytes();
    loop {
        match first_text(alloc, rest)? {
            First::End => return Ok(ParsedLine { words, rest }),
            First::Broken => return broken(words, rest),
            First::Text(word, after) => {
                words.push(word)?;
                rest = after;
            }
        }
    }
}

/// Splits a line of symbolic assembly like `take_words`, but a line without words is mostly seen at once.
pub fn take_line(alloc: Global, line: &str) -> Result<ParsedLine<'_>, AllocError>
    ensures { IfOk result (λ taken. (seen : Line) × IsTaken seen line.now × (texts taken.words.items ≡ line_words seen)) }
{
    if is_plainly_blank(line) {
        Ok(ParsedLine {
            words: Vec::new(alloc),
            rest: line.as_bytes(),
        })
    } else {
        take_words(alloc, line)
    }
}
