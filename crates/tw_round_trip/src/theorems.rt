//! Theorems on traces of accepted programs. Nothing is computed here: the contracts are the theorems.

ghost use Rattle.tw_round_trip.specs.Replays.{ReplaysPrintReports};
ghost use Rattle.tw_round_trip.specs.Traces.{TracesAreReadBack};

use tw_verify::{Verified, no_trap};

/// Proves that the lines written of a run's events are read as these events, whatever follows them.
pub fn traces_are_read_back(verified: &Verified)
    ensures { TracesAreReadBack verified.now.program }
{
    no_trap(verified);
    let _procedures = verified.program().procedures();
}

/// Proves that the replay of a run's trace prints the run's report, if the run ended by itself.
pub fn replays_print_reports(verified: &Verified)
    ensures { ReplaysPrintReports verified.now.program }
{
    no_trap(verified);
    let _procedures = verified.program().procedures();
}
