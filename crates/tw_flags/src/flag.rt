//! A stop flag, and a signal that looks at it.

ghost use Rattle.std.specs.Prelude.{◌≡◌};
ghost use Rattle.std.specs.Arc.{arc_value};
ghost use Rattle.tw_flags.specs.Values.{word_in};

use crate::rule::FlagRule;
use logbook::{Seen, Word};
use std::sync::Arc;

/// A stop flag. Its other holders may set it, too.
#[derive(Drop)]
pub struct StopFlag {
    pub(crate) word: Arc<Word<bool, bool, FlagRule>>,
    /// The values that this holder has seen. It has no bytes.
    pub(crate) seen: Seen<bool, bool, FlagRule>,
    pub(crate) ghost is_tracked: { arc_value word ≡ word_in seen.book },
}

/// A flag at which one run looks.
#[derive(Drop)]
pub struct FlagSignal<'f> {
    pub(crate) word: &'f Word<bool, bool, FlagRule>,
    /// The values that the run has seen. It has no bytes.
    pub(crate) seen: Seen<bool, bool, FlagRule>,
    pub(crate) ghost is_tracked: { word.now ≡ word_in seen.book },
}

/// A flag as a run has seen it, after the run. It has no bytes.
#[derive(Drop)]
pub struct SeenValues {
    pub(crate) seen: Seen<bool, bool, FlagRule>,
}
