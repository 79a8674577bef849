//! Theorems: what this crate writes is read back.

ghost use Rattle.tw_lexer.specs.Theorems.{NumbersAreReadBack, QuotedTextsAreReadBack};

/// Proves that the decimal text of a number is read as this number.
pub fn numbers_are_read_back()
    ensures { NumbersAreReadBack }
{}

/// Proves that a quoted text is read as itself, whatever follows it.
pub fn quoted_texts_are_read_back()
    ensures { QuotedTextsAreReadBack }
{}
