//! Theorems about all texts.

ghost use Rattle.tw_symbols.specs.Theorems.{AsManyLines, NamesDiffer, NamesStay};

/// Proves that a line keeps its number when names are replaced.
pub fn as_many_lines()
    ensures { AsManyLines }
{}

/// Proves that names by which registers of a procedure are listed or made mean different registers.
pub fn names_differ()
    ensures { NamesDiffer }
{}

/// Proves that the name of a register keeps its meaning until the next head.
pub fn names_stay()
    ensures { NamesStay }
{}
