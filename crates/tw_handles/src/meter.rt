//! The meter of a run: how much it did, and what its store held at the end.

ghost use Rattle.std.specs.Prelude.{◌≡◌};
ghost use Rattle.tw_bounds.specs.Runs.{tasks_by as tasks_by_is, tasks_in as tasks_in_is};
ghost use Rattle.tw_handles.specs.Codes.{done};
ghost use Rattle.tw_handles.specs.Meter.{meter_of};
ghost use Rattle.tw_handles.specs.Numbers.{filled};

use crate::codes;
use crate::numbers::put;
use crate::printing::instructions_of;
use tw_in_turn::EndedRun;
use tw_pool::History;
use tw_types::Event;

/// Returns how many tasks an event takes.
fn tasks_by(event: Event) -> u64
    ensures { result ≡ tasks_by_is event }
{
    match event {
        Event::Take(_) => 1,
        Event::Local(..) | Event::Call(_) | Event::End(_) => 0,
        Event::Ask(..) | Event::Deliver(..) | Event::Release(..) => 0,
    }
}

/// Returns how many tasks a run took.
fn tasks_in(history: &History) -> u64
    ensures { result ≡ tasks_in_is history.now.events }
{
    let mut tasks = 0;
    for index in 0..history.len() {
        tasks += tasks_by(history.event(index));
    }
    tasks
}

/// Writes how many events a run had, how many tasks it took, how many instructions it executed, and how many data it made, with those of
/// its opening. Two numbers more are the members and the bytes of texts that its store held at the end. None is larger than 2 ^ 64 - 1.
pub fn report_meter(left: &EndedRun, numbers: &mut [u64]) -> u8
    ensures numbers { numbers.new ≡ filled (meter_of left.now) numbers.old }
    ensures code { result ≡ done }
{
    let held = left.outcome.amounts();
    let meter = [
        left.history.len() as u64,
        tasks_in(&left.history),
        instructions_of(left),
        left.outcome.next().number().saturating_sub(1),
        held.members,
        held.bytes,
    ];
    put(&meter, numbers);
    codes::DONE
}
