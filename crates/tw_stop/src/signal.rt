//! The interface between a run and what may stop it.

ghost use Rattle.std.specs.Prelude.{Bool};
ghost use Rattle.tw_stop.specs.Looks.{always_no};

/// A signal that may stop a run. Each look is a step of the signal, so that a run's contract can list the answers.
pub trait StopSignal {
    /// Relates the signal before a look, its answer, and the signal afterwards.
    ghost says: { Self → Bool → Self → Type 0 };

    /// Looks whether the run is to stop.
    fn is_raised(&mut self) -> bool
        ensures { says self.old result self.new };
}

/// A signal that never stops a run.
#[derive(Clone, Copy)]
pub struct Never;

impl StopSignal for Never {
    ghost says = { always_no };

    #[inline(always)]
    fn is_raised(&mut self) -> bool {
        false
    }
}
