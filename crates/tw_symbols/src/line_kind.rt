//! The kinds of lines of symbolic assembly.

ghost use Rattle.std.specs.Prelude.{◌≡◌};
ghost use Rattle.tw_code.specs.format.Table.{opcode_in};
ghost use Rattle.tw_code.specs.format.Versions.{last_version};
ghost use Rattle.tw_symbols.specs.LineNames.{is_names_line, kind_in, kind_of};
ghost use Rattle.tw_symbols.specs.Seen.{texts};

use tw_code::{Opcode, Version, opcode_in};
use tw_lexer::before_colon;

/// A kind of line of symbolic assembly, by its first word.
#[derive(Clone, Copy)]
pub enum LineKind {
    /// Just the word `names`.
    Names,
    Constant,
    Let,
    Head,
    Registers,
    Instruction(Opcode),
    /// A label, a version, or nothing that the assembler can read.
    Other,
}

/// Returns whether these words of a line are just `names`, which begins symbolic assembly.
pub fn is_names_line(first: &[u8], words: &[&[u8]]) -> bool
    ensures { result ≡ is_names_line first.now (texts words.now) }
{
    first == b"names".as_slice() && words.is_empty()
}

/// Returns the opcode of a line's first word, if it is one's name. No names are compared with a label: a long text may have millions.
fn opcode_of(word: &[u8]) -> Option<Opcode>
    ensures { result ≡ opcode_in last_version word.now }
{
    match before_colon(word) {
        Some(_) => None,
        None => opcode_in(Version::LAST, word),
    }
}

/// Returns the kind of line that begins with an instruction's opcode, or with none.
fn kind_in(opcode: Option<Opcode>) -> LineKind
    ensures { result ≡ kind_in opcode }
{
    match opcode {
        Some(opcode) => LineKind::Instruction(opcode),
        None => LineKind::Other,
    }
}

/// Returns the kind of a line of symbolic assembly, by its first word and those after it.
pub fn kind_of(first: &[u8], words: &[&[u8]]) -> LineKind
    ensures { result ≡ kind_of first.now (texts words.now) }
{
    if is_names_line(first, words) {
        LineKind::Names
    } else if first == b"const".as_slice() {
        LineKind::Constant
    } else if first == b"let".as_slice() {
        LineKind::Let
    } else if first == b"proc".as_slice() {
        LineKind::Head
    } else if first == b"regs".as_slice() {
        LineKind::Registers
    } else {
        kind_in(opcode_of(first))
    }
}
