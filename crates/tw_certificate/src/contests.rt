//! Single events: whether they are contested insertions, and which write right they copy.

ghost use Rattle.std.specs.Prelude.{◌≡◌, false, true, MatchOption, Some, slice_get};
ghost use Rattle.std.specs.FinMap.{get};
ghost use Rattle.std.specs.Option.{option_and_then, option_copied};
ghost use Rattle.tw_types.specs.StoreCalls.{entry_at, member_at};
ghost use Rattle.tw_code.specs.declared.instr.Instr.TheVariants.{Data as OnData};
ghost use Rattle.tw_code.specs.machine.Due.{instr_here};
ghost use Rattle.tw_code.specs.machine.Rights.{right_at};
ghost use Rattle.tw_determinism.specs.Contested.{Copied, copied_by, copy_in, copy_of, is_contest, is_contest_of, is_copied};
ghost use Rattle.tw_determinism.specs.Refused.{is_value_taken};
ghost use Rattle.tw_certificate.specs.Noted.{IsCalm, IsContestedAt, IsPlaceOf, Notes};

use std::collections::BTreeSet;
use tw_code::{DataInstr, Instr};
use tw_copies::CopyInsertion;
use tw_machine::{Frame, Plain};
use tw_types::{Actor, DatumId, Event, Value};

/// Returns the datum whose write right an instruction on data copies.
fn copy_of_data(frame: &Frame, instr: &DataInstr) -> Option<DatumId>
    ensures { result ≡ copy_of frame.now (Some (OnData instr.now)) }
{
    match *instr {
        DataInstr::CopyWrite { to: _, from } => frame.right(from),
        DataInstr::New { .. } | DataInstr::Store { .. } | DataInstr::Get { .. } => None,
        DataInstr::Insert { .. } | DataInstr::Look { .. } | DataInstr::Size { .. } => None,
        DataInstr::SubscriptAt { .. } | DataInstr::CopyRead { .. } => None,
        DataInstr::InsertValue { .. } | DataInstr::AddValue { .. } => None,
        DataInstr::GetValue { .. } => None,
        DataInstr::DropRead { .. } | DataInstr::DropWrite { .. } => None,
    }
}

/// Returns the datum whose write right an instruction of a task copies.
fn copy_of(frame: &Frame, instr: &Instr) -> Option<DatumId>
    ensures { result ≡ copy_of frame.now (Some instr.now) }
{
    match instr {
        Instr::Data(instr) => copy_of_data(frame, instr),
        Instr::Local(_) | Instr::Rule(_) | Instr::Put(_) | Instr::Ret => None,
    }
}

/// Returns the datum whose write right the next instruction of an actor's task copies.
fn copy_in(plain: &Plain, actor: Actor) -> Option<DatumId>
    ensures { result ≡ copy_in plain.now.program (get plain.now.state.frames actor) }
{
    let frame = plain.state().frame(actor)?;
    let procedure = plain
        .program()
        .procedures()
        .get(usize::from(frame.procedure()))?;
    let instr = procedure.code.as_slice().get(frame.place())?;
    copy_of(frame, instr)
}

/// Returns the datum whose write right an event copies. Call it before the event is executed.
pub(crate) fn copied_by(plain: &Plain, event: &Event) -> Option<DatumId>
    ensures { result ≡ copied_by plain.now.program event.now plain.now.state }
{
    match *event {
        Event::Call(actor) => copy_in(plain, actor),
        Event::Take(_) | Event::Local(_, _) | Event::End(_) => None,
        Event::Ask(_, _, _) | Event::Deliver(_, _, _, _) | Event::Release(_, _) => None,
    }
}

// ---- contested insertions

/// Returns the member of a container at the subscript in a value register, for an insertion that may be contested.
fn member_at(plain: &Plain, frame: &Frame, container: u8, subscript: u8) -> Option<DatumId>
    ensures { result ≡ option_and_then (λ id. option_and_then (λ at. member_at plain.now.state.store id at) (slice_get frame.now.position.values subscript)) (right_at frame.now.rights container) }
{
    let id = frame.right(container)?;
    let at = frame.position().value(subscript)?;
    let datum = plain.state().datum(id)?;
    datum.member_at(at.borrowed())
}

/// Returns whether a map has a value at the subscript in a value register, so that an insertion is refused.
fn has_value_at(plain: &Plain, frame: &Frame, map: u8, subscript: u8) -> bool
    ensures { result ≡ is_value_taken plain.now.state.store frame.now map subscript }
{
    value_at(plain, frame, map, subscript).is_some()
}

/// Returns the value of a map at the subscript in a value register, for an insertion that may be contested.
fn value_at<'p>(plain: &'p Plain, frame: &Frame, map: u8, subscript: u8) -> Option<&'p Value>
    ensures { option_copied result ≡ option_and_then (λ id. option_and_then (λ at. entry_at plain.now.state.store id at) (slice_get frame.now.position.values subscript)) (right_at frame.now.rights map) }
{
    let id = frame.right(map)?;
    let at = frame.position().value(subscript)?;
    let datum = plain.state().datum(id)?;
    datum.value_at(at.borrowed())
}

/// Returns whether the set of copied data has this datum, if there is one.
fn is_copied(copied: &BTreeSet<u64>, id: Option<DatumId>) -> bool
    ensures { (c : Copied) → Notes copied.now c → result ≡ is_copied c id }
{
    match id {
        Some(id) => copied.contains(&id.number()),
        None => false,
    }
}

/// Returns whether an instruction on data is an insertion that will be refused at a container of the set.
fn is_contest_on(plain: &Plain, copied: &BTreeSet<u64>, frame: &Frame, instr: &DataInstr) -> bool
    ensures { (c : Copied) → Notes copied.now c → result ≡ is_contest c plain.now.state.store frame.now (Some (OnData instr.now)) }
{
    match *instr {
        DataInstr::Insert {
            by: _,
            container,
            subscript,
            member: _,
            skip: _,
        } => {
            let is_copy = is_copied(copied, frame.right(container));
            let is_taken = member_at(plain, frame, container, subscript).is_some();
            is_copy & is_taken
        }
        DataInstr::InsertValue {
            map,
            subscript,
            from: _,
            skip: _,
        } => {
            let is_copy = is_copied(copied, frame.right(map));
            is_copy & has_value_at(plain, frame, map, subscript)
        }
        DataInstr::AddValue { .. } | DataInstr::GetValue { .. } => false,
        DataInstr::New { .. } | DataInstr::Store { .. } | DataInstr::Get { .. } => false,
        DataInstr::Look { .. } | DataInstr::Size { .. } | DataInstr::SubscriptAt { .. } => false,
        DataInstr::CopyRead { .. } | DataInstr::CopyWrite { .. } => false,
        DataInstr::DropRead { .. } | DataInstr::DropWrite { .. } => false,
    }
}

/// Returns whether an instruction of a task is an insertion that will be refused at a container of the set.
fn is_contest(plain: &Plain, copied: &BTreeSet<u64>, frame: &Frame, instr: &Instr) -> bool
    ensures { (c : Copied) → Notes copied.now c → result ≡ is_contest c plain.now.state.store frame.now (Some instr.now) }
{
    match instr {
        Instr::Data(instr) => is_contest_on(plain, copied, frame, instr),
        Instr::Local(_) | Instr::Rule(_) | Instr::Put(_) | Instr::Ret => false,
    }
}

/// Returns the next instruction of a task of the certificate's replay.
fn instr_here<'p>(plain: &'p Plain, frame: &Frame) -> Option<&'p Instr>
    ensures { option_copied result ≡ instr_here plain.now.program frame.now }
{
    let procedure = plain
        .program()
        .procedures()
        .get(usize::from(frame.procedure()))?;
    procedure.code.as_slice().get(frame.place())
}

/// Returns whether the next instruction of a task is contested.
fn is_contest_here(plain: &Plain, copied: &BTreeSet<u64>, frame: &Frame) -> bool
    ensures { (c : Copied) → Notes copied.now c → result ≡ is_contest c plain.now.state.store frame.now (instr_here plain.now.program frame.now) }
{
    match instr_here(plain, frame) {
        Some(instr) => is_contest(plain, copied, frame, instr),
        None => false,
    }
}

/// Returns the place of the next instruction of an actor's task if it is a contested insertion.
fn contest_of(plain: &Plain, copied: &BTreeSet<u64>, actor: Actor) -> Option<CopyInsertion>
    ensures { (c : Copied) → Notes copied.now c → MatchOption result
        (is_contest_of plain.now.program c plain.now.state (get plain.now.state.frames actor) ≡ false)
        (λ at. (is_contest_of plain.now.program c plain.now.state (get plain.now.state.frames actor) ≡ true)
        × IsPlaceOf (get plain.now.state.frames actor) at.procedure at.place) }
{
    let frame = plain.state().frame(actor)?;
    if is_contest_here(plain, copied, frame) {
        Some(CopyInsertion {
            procedure: usize::from(frame.procedure()),
            place: frame.place(),
        })
    } else {
        None
    }
}

/// Returns the place of an event if it is a contested insertion, by the data that were copied before. Call it before the event is executed.
pub(crate) fn contest_at(
    plain: &Plain,
    copied: &BTreeSet<u64>,
    event: &Event,
) -> Option<CopyInsertion>
    ensures { MatchOption result
        (IsCalm plain.now.program event.now plain.now.state copied.now)
        (IsContestedAt plain.now.program event.now plain.now.state copied.now) }
{
    match *event {
        Event::Call(actor) => contest_of(plain, copied, actor),
        Event::Take(_) | Event::Local(_, _) | Event::End(_) => None,
        Event::Ask(_, _, _) | Event::Deliver(_, _, _, _) | Event::Release(_, _) => None,
    }
}
