//! Runs loaded programs.

ghost use Rattle.std.specs.Prelude.{◌≡◌, Some};
ghost use Rattle.tw_stop.specs.Looks.{Looked};
ghost use Rattle.tw_handles.specs.Running.{IsRun, IsRunBy, IsRunByFlag, IsRunIfWithin, IsRunIn, IsRunOn, IsRunUntil, IsRunWith, actors_at as actors_at_is, option_at as option_at_is, order_of as order_of_is, seed_of as seed_of_is};

use crate::caps::{CAPS, caps_of, is_admitted};
use crate::certificate::{asks, certify_if};
use crate::finished::Finished;
use crate::handle::Handle;
use crate::held::Held;
use crate::view::{inputs_of, program_of};
use crate::{codes, reading};
use std::alloc::Global;
use tw_flags::StopFlag;
use tw_in_turn::run_until;
use tw_order::Caps;
use tw_stop::{Never, StopSignal};
use tw_types::{Input, Layout};
use tw_verify::Verified;

/// The greatest number of actors that a layout may be asked for. None has so many.
const MANY: u64 = 255;

/// How a program is run, and the most that it may do.
#[derive(Clone, Copy)]
pub struct RunOrder {
    pub limit: usize,
    pub engines: u8,
    pub servers: u8,
    pub workers: u8,
    pub seed: Option<u64>,
    /// Whether the report has the run's certificate.
    pub certify: bool,
    /// Whether outputs are read if the run doesn't end by itself.
    pub partial: bool,
    pub caps: Caps,
}

/// How many options there are.
const OPTIONS: usize = 7;

/// Returns the option at this index, or the usual one if there are fewer.
pub(crate) fn option_at(options: &[u64], index: usize, default: u64) -> u64
    ensures { result ≡ option_at_is options.now index default }
{
    match options.get(index) {
        Some(number) => *number,
        None => default,
    }
}

/// Returns a number of actors. One that is too large for any layout stays so.
fn actors_at(options: &[u64], index: usize) -> u8
    ensures { result ≡ actors_at_is options.now index }
{
    option_at(options, index, 1).min(MANY) as u8
}

/// Returns the seed of an option; 0 is none.
fn seed_of(number: u64) -> Option<u64>
    ensures { result ≡ seed_of_is number }
{
    if number == 0 { None } else { Some(number) }
}

/// Returns the order that the options and caps of a list give. Those that are left out are as usual; without the seventh, outputs are always read.
fn order_of(options: &[u64], caps: &[u64]) -> RunOrder
    ensures { result ≡ order_of_is options.now caps.now }
{
    RunOrder {
        limit: option_at(options, 0, 10_000) as usize,
        engines: actors_at(options, 1),
        servers: actors_at(options, 2),
        workers: actors_at(options, 3),
        seed: seed_of(option_at(options, 4, 0)),
        certify: asks(option_at(options, 5, 0)),
        partial: asks(option_at(options, 6, 1)),
        caps: caps_of(caps),
    }
}

/// Runs a program in this thread.
fn run_on<S: StopSignal>(
    alloc: Global,
    verified: &Verified,
    inputs: &[Input],
    layout: Layout,
    order: RunOrder,
    stop: &mut S,
    report: &mut Handle,
) -> u8
    ensures { IsRunOn (Looked S.says stop.old stop.new) verified.now inputs.now layout order report.old.held report.new.held result }
{
    let (limit, seed, partial) = (order.limit, order.seed, order.partial);
    let left = match run_until(alloc, verified, inputs, layout, limit, seed, stop) {
        Ok(left) => left,
        Err(why) => return codes::of_open(why),
    };
    let Ok(certificate) = certify_if(alloc, order.certify, verified, inputs, layout, &left) else {
        return codes::NO_MEMORY;
    };
    let finished = Finished {
        left,
        certificate,
        partial,
    };
    match Handle::of_held(alloc, Held::Report(finished)) {
        Ok(handle) => {
            *report = handle;
            codes::DONE
        }
        Err(_) => codes::NO_MEMORY,
    }
}

/// Runs a program, if no bound of it is above its cap.
fn run_if_within<S: StopSignal>(
    alloc: Global,
    verified: &Verified,
    inputs: &[Input],
    layout: Layout,
    order: RunOrder,
    stop: &mut S,
    report: &mut Handle,
) -> u8
    ensures { IsRunIfWithin (Looked S.says stop.old stop.new) verified.now inputs.now layout order report.old.held report.new.held result }
{
    match is_admitted(alloc, verified, order.limit, order.caps) {
        Ok(true) => run_on(alloc, verified, inputs, layout, order, stop, report),
        Ok(false) => codes::ABOVE_CAP,
        Err(_) => codes::NO_MEMORY,
    }
}

/// Runs a program, if there is a layout with these numbers of actors.
fn run_in<S: StopSignal>(
    alloc: Global,
    verified: &Verified,
    inputs: &[Input],
    order: RunOrder,
    stop: &mut S,
    report: &mut Handle,
) -> u8
    ensures { IsRunIn (Looked S.says stop.old stop.new) verified.now inputs.now order report.old.held report.new.held result }
{
    match Layout::new(order.engines, order.servers, order.workers) {
        Ok(layout) => run_if_within(alloc, verified, inputs, layout, order, stop, report),
        Err(_) => codes::NO_LAYOUT,
    }
}

/// Runs a program with the inputs of a handle.
fn run_with<S: StopSignal>(
    alloc: Global,
    verified: &Verified,
    inputs: &mut Handle,
    order: RunOrder,
    stop: &mut S,
    report: &mut Handle,
) -> u8
    ensures kept { inputs.new.held ≡ inputs.old.held }
    ensures is { IsRunWith (Looked S.says stop.old stop.new) verified.now inputs.old.held order report.old.held report.new.held result }
{
    reading!(alloc, inputs, inputs_of, given => run_in(alloc, verified, given, order, stop, report))
}

/// Runs the program of a handle with the inputs of another.
fn run_program<S: StopSignal>(
    alloc: Global,
    program: &mut Handle,
    inputs: &mut Handle,
    order: RunOrder,
    stop: &mut S,
    report: &mut Handle,
) -> u8
    ensures program { program.new.held ≡ program.old.held }
    ensures inputs { inputs.new.held ≡ inputs.old.held }
    ensures is { IsRunBy (Looked S.says stop.old stop.new) program.old.held inputs.old.held order report.old.held report.new.held result }
{
    reading!(alloc, program, program_of, verified => run_with(alloc, verified, inputs, order, stop, report))
}

/// Runs it until a flag is raised. If the run was opened, the flag's holder has then seen what the run saw.
fn run_by_flag(
    alloc: Global,
    program: &mut Handle,
    inputs: &mut Handle,
    order: RunOrder,
    flag: &mut StopFlag,
    report: &mut Handle,
) -> u8
    ensures program { program.new.held ≡ program.old.held }
    ensures inputs { inputs.new.held ≡ inputs.old.held }
    ensures is { IsRunByFlag program.old.held inputs.old.held order flag.old (Some (Held.Stop flag.new)) report.old.held report.new.held result }
{
    let mut signal = flag.signal();
    let code = run_program(alloc, program, inputs, order, &mut signal, report);
    if code == codes::DONE {
        let seen = signal.into_seen();
        flag.catch_up(seen);
    }
    code
}

/// Runs it until a flag is raised, if the contents are one.
fn run_until_held(
    alloc: Global,
    program: &mut Handle,
    inputs: &mut Handle,
    order: RunOrder,
    stop: &mut Held,
    report: &mut Handle,
) -> u8
    ensures program { program.new.held ≡ program.old.held }
    ensures inputs { inputs.new.held ≡ inputs.old.held }
    ensures is { IsRunUntil program.old.held inputs.old.held order (Some stop.old) (Some stop.new) report.old.held report.new.held result }
{
    match stop {
        Held::Stop(flag) => run_by_flag(alloc, program, inputs, order, flag, report),
        Held::Program(_) | Held::Inputs(_) | Held::Report(_) | Held::Container(_) | Held::Text(_) =>
            codes::NO_STOP,
    }
}

/// Runs it until the flag of a handle is raised. A null handle is a flag that never is.
fn run_until_stopped(
    alloc: Global,
    program: &mut Handle,
    inputs: &mut Handle,
    order: RunOrder,
    stop: &mut Handle,
    report: &mut Handle,
) -> u8
    ensures program { program.new.held ≡ program.old.held }
    ensures inputs { inputs.new.held ≡ inputs.old.held }
    ensures is { IsRunUntil program.old.held inputs.old.held order stop.old.held stop.new.held report.old.held report.new.held result }
{
    let Some(mut whole) = stop.take(alloc) else {
        return run_program(alloc, program, inputs, order, &mut Never, report);
    };
    let code = run_until_held(alloc, program, inputs, order, &mut whole, report);
    *stop = Handle::of(whole);
    code
}

/// Runs a loaded program in this thread, its actors in turn, until the run ends or the flag of `stop` is raised. `options` are the limit, the
/// numbers of engines, servers and workers, and the seed that decides the order of the turns, or 0. Two more are 0 or not: whether the report is to have
/// the run's certificate, and whether its outputs are read if it doesn't end by itself. `caps` are the most that the run may do, in the order of
/// `Caps`. What they lack is as usual, and no cap. If the run is opened, `report` holds its result, and the former contents of `report` are freed.
/// Otherwise returns `NO_OPTIONS`, `NO_STOP`, `NO_PROGRAM`, `NO_INPUTS`, `NO_LAYOUT`, the code of an `OpenError`, or `ABOVE_CAP` if a bound of the
/// program's runs is above its cap. Each run that is opened is within the caps.
pub fn run(
    alloc: Global,
    program: &mut Handle,
    inputs: &mut Handle,
    options: &[u64],
    caps: &[u64],
    stop: &mut Handle,
    report: &mut Handle,
) -> u8
    ensures program { program.new.held ≡ program.old.held }
    ensures inputs { inputs.new.held ≡ inputs.old.held }
    ensures is { IsRun program.old.held inputs.old.held options.now caps.now stop.old.held stop.new.held report.old.held report.new.held result }
{
    if options.len() > OPTIONS || caps.len() > CAPS {
        return codes::NO_OPTIONS;
    }
    run_until_stopped(
        alloc,
        program,
        inputs,
        order_of(options, caps),
        stop,
        report,
    )
}
