//! Theorems on visible texts.

ghost use Rattle.std.specs.Prelude.{ℕ, List};
ghost use Rattle.tw_visible.specs.Visible.{HidesNothing, printed};
ghost use Rattle.tw_visible.specs.declared.characters.Kind.{Kind};

/// Proves that what is printed of a text has no hidden character.
pub fn nothing_is_hidden()
    ensures { (kind : Kind) (text : List ℕ) → HidesNothing (printed kind text) }
{}
