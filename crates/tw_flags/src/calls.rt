//! Calls on a stop flag.

ghost use Rattle.std.specs.Prelude.{◌≡◌, [], IfOk};
ghost use Rattle.tw_flags.specs.Flags.{HasCaughtUp, HasSeen, IsFlagOf, IsOfFlag, IsSeen, IsSet, IsShared, values_of};

use crate::flag::{FlagSignal, SeenValues, StopFlag};
use crate::rule::{FlagRule, Look, Nothing, Setting};
use logbook::{Offer, Seen, Start, Word};
use std::alloc::{AllocError, Global};
use std::sync::Arc;
use tw_stop::StopSignal;

impl StopFlag {
    /// Makes a flag that isn't raised.
    pub fn new(alloc: Global) -> Result<StopFlag, AllocError>
        ensures { IfOk result (λ flag. values_of flag ≡ []) }
    {
        let (seen, mut pen, _other) = Seen::open(Start::alone(), 0, 0);
        match Arc::new(alloc, Word::tracked(0, &mut pen)) {
            Ok(word) => Ok(StopFlag { word, seen }),
            Err(_) => Err(AllocError),
        }
    }

    /// Returns another holder of this flag, which has seen the same values.
    pub fn share(&self) -> Result<StopFlag, AllocError>
        ensures { IfOk result (λ other. IsShared self.now other) }
    {
        match Arc::try_clone(&self.word) {
            Ok(word) => Ok(StopFlag {
                word,
                seen: self.seen.again(),
            }),
            Err(_) => Err(AllocError),
        }
    }

    /// Raises the flag, or lowers it. Allocates nothing.
    pub fn set(&mut self, raised: bool)
        ensures { IsSet raised self.old self.new }
    {
        let mut offer: Offer<bool, bool, FlagRule, Nothing> = self
            .seen
            .plain::<Nothing, bool, Setting>(&raised);
        let mut pen = self.seen.no_pen();
        let word = u64::from(raised);
        let _found = self
            .word
            .compare_exchange::<Setting, Nothing>(
                1 - word,
                word,
                &mut self.seen,
                &mut offer,
                &mut pen,
            );
    }

    /// Returns the signal for a run that looks at the flag. It has seen the same values.
    pub fn signal(&self) -> FlagSignal<'_>
        ensures { IsFlagOf self.now result }
    {
        FlagSignal {
            word: &self.word,
            seen: self.seen.again(),
        }
    }

    /// Lets the holder have seen what a run's signal has seen.
    pub fn catch_up(&mut self, run: SeenValues)
        requires { IsOfFlag self.old run }
        ensures { HasCaughtUp self.old run self.new }
    {
        self.seen = run.seen;
    }
}

impl<'f> FlagSignal<'f> {
    /// Ends the looks, and returns what the run has seen.
    pub fn into_seen(self) -> SeenValues
        ensures { HasSeen self.entry result }
    {
        SeenValues { seen: self.seen }
    }
}

impl<'f> StopSignal for FlagSignal<'f> {
    ghost says = { IsSeen };

    #[inline(always)]
    fn is_raised(&mut self) -> bool {
        let mut offer: Offer<bool, bool, FlagRule, Nothing> = self
            .seen
            .plain::<Nothing, bool, Setting>(&false);
        self.word.load::<Look, Nothing>(&mut self.seen, &mut offer) != 0
    }
}
