//! First words of lines, and the statements that they begin.

ghost use Rattle.std.specs.Prelude.{◌≡◌, ◌⊎◌, ◌↔◌, MatchOption, IsTrue};
ghost use Rattle.tw_asm.specs.declared.statement.First.{First};
ghost use Rattle.tw_asm.specs.reading.Expected.{is_plainly_blank};
ghost use Rattle.tw_asm.specs.Statement.{IsInstrWord, IsLabelWord, IsExpected};

use crate::statement::First;
use tw_code::{Version, opcode_in};
use tw_lexer::{before, is_name};

/// Returns whether a first word is a label.
#[tactic(auto, using(crate::proofs::Firsts::no_label))]
fn is_label(word: &[u8]) -> bool
    ensures { IsTrue result ↔ IsLabelWord word.now }
{
    match before(word, b":") {
        Some(name) => is_name(name),
        None => false,
    }
}

/// Returns whether a first word is the name of an instruction in this version.
#[tactic(auto, using(crate::proofs::Firsts::named_word))]
fn is_instr_name(version: Version, word: &[u8]) -> bool
    ensures { IsTrue result ↔ IsInstrWord version word.now }
{
    opcode_in(version, word).is_some()
}

/// Returns the kind of statement that begins with a word in this version, if there is one.
pub fn first_of(version: Version, word: &[u8]) -> Option<First>
    ensures { MatchOption result ((first : First) → IsExpected version first word.now → ⊥) (λ first. IsExpected version first word.now) }
{
    if word == b"proc".as_slice() {
        Some(First::Head)
    } else if word == b"regs".as_slice() {
        Some(First::Registers)
    } else if word == b"version".as_slice() {
        Some(First::Version)
    } else if is_label(word) || is_instr_name(version, word) {
        Some(First::Body)
    } else {
        None
    }
}

/// Returns whether the first byte says that a line has no word. Most bytes of a long text may be line ends or begin comments.
pub fn is_plainly_blank(line: &str) -> bool
    ensures { result ≡ is_plainly_blank line.now }
{
    match line.as_bytes() {
        [byte, ..] => *byte == b';',
        [] => true,
    }
}
