//! Theorems about all texts.

ghost use Rattle.tw_asm.specs.Theorems.{OneFirstFault, OneLine, OneProgram};

/// Proves that a text denotes at most one program. So `assemble` returns the program that was given to `disassemble`.
pub fn spells_once()
    ensures { OneProgram }
{}

/// Proves that a text has at most one first fault. So `assemble` can return no other, however it reads the text.
pub fn one_first_fault()
    ensures { OneFirstFault }
{}

/// Proves that an instruction comes from at most one line. So `assemble_lined` can return no other.
pub fn one_line_each()
    ensures { OneLine }
{}
