//! Exports the calls of `tw_handles` that run programs, and those on stop flags.

ghost use Rattle.std.specs.Prelude.{◌≡◌, true, false};
ghost use Rattle.tw_handles.specs.Asking.{WithProgram};
ghost use Rattle.tw_handles.specs.Running.{IsRun};
ghost use Rattle.tw_handles.specs.Stops.{IsStopMade, IsStopSet, IsStopShared};
ghost use Rattle.tw_handles.specs.Unfit.{IsUnfitBy};

use std::alloc::Global;
use tw_handles::{Handle, inputs_of, program_of, reading, stop_of};

/// Exports `tw_handles::stop_new`.
#[unsafe(no_mangle)]
pub extern "C" fn yuglemit_stop_new(alloc: Global, stop: &mut Handle) -> u8
    ensures { IsStopMade stop.old.held stop.new.held result }
{
    tw_handles::stop_new(alloc, stop)
}

/// Exports `tw_handles::stop_share`.
#[unsafe(no_mangle)]
pub extern "C" fn yuglemit_raw_stop_share(
    alloc: Global,
    stop: &mut Handle,
    other: &mut Handle,
) -> u8
    ensures kept { stop.new.held ≡ stop.old.held }
    ensures is { IsStopShared stop.old.held other.old.held other.new.held result }
{
    reading!(alloc, stop, stop_of, flag => tw_handles::stop_share(alloc, flag, other))
}

/// Exports `tw_handles::stop_raise`.
#[unsafe(no_mangle)]
pub extern "C" fn yuglemit_raw_stop_raise(alloc: Global, stop: &mut Handle) -> u8
    ensures { IsStopSet true stop.old.held stop.new.held result }
{
    tw_handles::stop_raise(alloc, stop)
}

/// Exports `tw_handles::stop_lower`.
#[unsafe(no_mangle)]
pub extern "C" fn yuglemit_raw_stop_lower(alloc: Global, stop: &mut Handle) -> u8
    ensures { IsStopSet false stop.old.held stop.new.held result }
{
    tw_handles::stop_lower(alloc, stop)
}

/// Exports `tw_handles::run`.
#[unsafe(no_mangle)]
pub extern "C" fn yuglemit_raw_run(
    alloc: Global,
    program: &mut Handle,
    inputs: &mut Handle,
    options: &[u64],
    caps: &[u64],
    stop: &mut Handle,
    report: &mut Handle,
) -> u8
    ensures program { program.new.held ≡ program.old.held }
    ensures inputs { inputs.new.held ≡ inputs.old.held }
    ensures is { IsRun program.old.held inputs.old.held options.now caps.now stop.old.held stop.new.held report.old.held report.new.held result }
{
    tw_handles::run(alloc, program, inputs, options, caps, stop, report)
}

/// Exports `tw_handles::unfit_input`.
#[unsafe(no_mangle)]
pub extern "C" fn yuglemit_raw_unfit_input(
    alloc: Global,
    program: &mut Handle,
    inputs: &mut Handle,
    index: &mut usize,
) -> u8
    ensures program { program.new.held ≡ program.old.held }
    ensures inputs { inputs.new.held ≡ inputs.old.held }
    ensures is { WithProgram (λ verified. IsUnfitBy verified inputs.old.held) program.old.held index.old index.new result }
{
    reading!(alloc, program, program_of, verified => {
        reading!(alloc, inputs, inputs_of, given => tw_handles::unfit_input(verified, given, index))
    })
}

/// Frees what the handle of a stop flag holds.
#[unsafe(no_mangle)]
pub extern "C" fn yuglemit_stop_free(stop: Handle) {
    stop.drop();
}
