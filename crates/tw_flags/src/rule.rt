//! The rule of a flag's word, and the steps on it. None of these types has a value or code.

use logbook::{Gain, Plain, Play, Rule};

/// The word of a flag is that of its values.
pub struct FlagRule;

impl Rule<bool, bool> for FlagRule {
    ghost use Rattle.std.specs.Prelude.{[]};
    ghost use base.Fml.{ftrue};
    ghost use Rattle.tw_flags.specs.Values.{IsKept};

    ghost holds = { λ cells values. IsKept cells values };

    ghost first = { [] };

    ghost hinted = { λ word values. Unit {0} };

    ghost shows = { λ values. [] };

    ghost keeps = { λ names values. ftrue };

    ghost moves = { λ asked before after answer. Unit {0} };
}

/// Holders trade nothing.
pub(crate) struct Nothing;

impl Gain<bool, bool> for Nothing {
    ghost use base.Fml.{ftrue};

    ghost after = { λ names about answer. ftrue };
}

/// A look at a flag.
pub(crate) struct Look;

impl Play<bool, bool> for Look {
    ghost use Rattle.tw_flags.specs.Values.{Looks};

    ghost then = { Looks };
}

/// A setting of a flag.
pub(crate) struct Setting;

impl Play<bool, bool> for Setting {
    ghost use Rattle.tw_flags.specs.Values.{Sets};

    ghost then = { Sets };
}

impl Plain<bool, bool, bool> for Setting {
    ghost use Rattle.std.specs.Prelude.{None};

    ghost ask = { λ raised. raised };

    ghost state = { λ raised. None };
}
