//! The pieces of words in lines that list registers: signs separate words there too, except in a word with a quote.

ghost use Rattle.std.specs.Prelude.{◌≡◌, [], ◌++◌, ◌+◌, ◌<◌, ◌≤◌, IfOk, OnOk, length};
ghost use Rattle.tw_symbols.specs.Answers.{pieces_left};
ghost use Rattle.std.specs.List.{flat_map};
ghost use Rattle.tw_symbols.specs.Lines.{has_quote, is_sign, pieces, pieces_after, some_piece};
ghost use Rattle.tw_symbols.specs.Seen.{texts};

use std::alloc::{AllocError, Global};

/// Returns whether a byte is `(`, `)` or `,`, which separate pieces in lines that list registers.
fn is_sign(byte: u8) -> bool
    ensures { result ≡ is_sign byte }
{
    byte == b'(' || byte == b')' || byte == b','
}

/// Adds a piece of a word to a list of pieces, unless it is empty.
fn push_some<'a>(out: &mut Vec<&'a [u8]>, piece: &'a [u8]) -> Result<(), AllocError>
    ensures { OnOk result (texts out.new.items ≡ texts out.old.items ++ some_piece piece.now) }
{
    if !piece.is_empty() {
        out.push(piece)?;
    }
    Ok(())
}

/// Adds the piece that begins at `start` if it ends at the index. Returns the start of the piece after the index.
#[tactic(auto, using(crate::proofs::Cutting::goes_on, crate::proofs::Cutting::ends))]
fn push_ended<'a>(
    out: &mut Vec<&'a [u8]>,
    word: &'a [u8],
    start: usize,
    index: usize,
) -> Result<usize, AllocError>
    requires start { start ≤ index }
    requires index { index < length word.now }
    ensures start { IfOk result (λ next. next ≤ index + 1) }
    ensures pieces { IfOk result (λ next. texts out.new.items ++ pieces_left word.entry.now next (index + 1) ≡ texts out.old.items ++ pieces_left word.entry.now start index) }
{
    if is_sign(word[index]) {
        push_some(out, &word[start..index])?;
        Ok(index + 1)
    } else {
        Ok(start)
    }
}

/// Adds the pieces of a word without a quote, as its signs separate them.
#[tactic(auto, using(crate::proofs::Cutting::left_first))]
fn push_parted<'a>(out: &mut Vec<&'a [u8]>, word: &'a [u8]) -> Result<(), AllocError>
    ensures { OnOk result (texts out.new.items ≡ texts out.old.items ++ pieces_after [] word.entry.now) }
{
    let mut start = 0;
    for index in 0..word.len() {
        start = push_ended(out, word, start, index)?;
    }
    push_some(out, &word[start..])?;
    Ok(())
}

/// Returns whether a word has a quote. A quoted text begins in it, or ends.
fn has_quote(word: &[u8]) -> bool
    ensures { result ≡ has_quote word.now }
{
    word.contains(&b'"')
}

/// Adds the pieces of a word: the word itself if it has a quote.
fn push_pieces<'a>(out: &mut Vec<&'a [u8]>, word: &'a [u8]) -> Result<(), AllocError>
    ensures { OnOk result (texts out.new.items ≡ texts out.old.items ++ pieces word.entry.now) }
{
    if has_quote(word) {
        push_some(out, word)
    } else {
        push_parted(out, word)
    }
}

/// Returns the pieces of words, which signs such as `,` separate too, in their order.
pub fn pieces_of<'a>(alloc: Global, words: &[&'a [u8]]) -> Result<Vec<&'a [u8]>, AllocError>
    ensures { IfOk result (λ all. texts all.items ≡ flat_map pieces (texts words.now)) }
{
    let mut all = Vec::new(alloc);
    for word in words {
        push_pieces(&mut all, word)?;
    }
    Ok(all)
}
