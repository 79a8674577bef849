//! The rules that are pending when a run is closed.

ghost use Rattle.std.specs.Prelude.{◌≡◌, ◌++◌, ◌∷◌, [], if◌then◌else◌, map, IfOk, OnOk};
ghost use Rattle.std.specs.List.{flat_map};
ghost use Rattle.tw_types.specs.Rule.{is_waiting};
ghost use Rattle.tw_pool.specs.Pendings.{pending_with_data, waited_at, waits_in, written_at};

use std::alloc::{AllocError, Global};
use tw_rules::{ErasedArg, ErasedRule};
use tw_types::{DatumId, Items, Pending, Stage};

/// Adds the datum for which a rule's parameter waits, if its stage is waiting.
fn put_if_waiting(ids: &mut Vec<DatumId>, stage: Stage, id: DatumId) -> Result<(), AllocError>
    ensures { OnOk result (ids.new.items ≡ ids.old.items ++ (if is_waiting stage then id ∷ [] else [])) }
{
    match stage {
        Stage::Waiting => Ok(ids.push(id)?),
        Stage::Free | Stage::Unasked | Stage::Ready => Ok(()),
    }
}

/// Adds the datum of an argument for which a parameter waits, of a rule that a closed pool left.
fn put_waited(ids: &mut Vec<DatumId>, stage: Stage, arg: ErasedArg) -> Result<(), AllocError>
    ensures { OnOk result (ids.new.items ≡ ids.old.items ++ waited_at stage arg) }
{
    match arg {
        ErasedArg::Read(id) => put_if_waiting(ids, stage, id),
        ErasedArg::Write(id) => put_if_waiting(ids, stage, id),
        ErasedArg::Val => Ok(()),
    }
}

/// Returns the data for which the parameters of a rule wait that a closed pool left.
fn waits_in(alloc: Global, stages: &[Stage], args: &[ErasedArg]) -> Result<Vec<DatumId>, AllocError>
    ensures { IfOk result (λ ids. ids.items ≡ waits_in stages.now args.now) }
{
    let mut ids = Vec::new(alloc);
    let mut rest = args;
    for stage in stages {
        let Some((arg, others)) = rest.split_first() else {
            return Ok(ids);
        };
        put_waited(&mut ids, *stage, *arg)?;
        rest = others;
    }
    Ok(ids)
}

/// Adds the datum of a write right of a rule that a closed pool left.
fn put_written(ids: &mut Vec<DatumId>, arg: ErasedArg) -> Result<(), AllocError>
    ensures { OnOk result (ids.new.items ≡ ids.old.items ++ written_at arg) }
{
    match arg {
        ErasedArg::Write(id) => Ok(ids.push(id)?),
        ErasedArg::Read(_) => Ok(()),
        ErasedArg::Val => Ok(()),
    }
}

/// Returns the data of the write rights of a rule that a closed pool left.
fn writes_in(alloc: Global, args: &[ErasedArg]) -> Result<Vec<DatumId>, AllocError>
    ensures { IfOk result (λ ids. ids.items ≡ flat_map written_at args.now) }
{
    let mut ids = Vec::new(alloc);
    for arg in args {
        put_written(&mut ids, *arg)?;
    }
    Ok(ids)
}

/// Returns a rule that a closed pool left, with the data for which it waits or that it may write.
fn pending_with_data(alloc: Global, rule: &ErasedRule) -> Result<Pending, AllocError>
    ensures { IfOk result (λ p. p ≡ pending_with_data rule.now) }
{
    let waits = waits_in(alloc, rule.stages.as_slice(), rule.args.as_slice())?;
    let writes = writes_in(alloc, rule.args.as_slice())?;
    Ok(Pending {
        number: rule.number,
        waits: Items::from(waits),
        writes: Items::from(writes),
    })
}

/// Returns the rules that a closed pool left, with the data for which they wait, and those that they may write.
pub(crate) fn all_pending(alloc: Global, rules: &[ErasedRule]) -> Result<Vec<Pending>, AllocError>
    ensures { IfOk result (λ pending. pending.items ≡ map pending_with_data rules.now) }
{
    let mut pending = Vec::new(alloc);
    for rule in rules {
        pending.push(pending_with_data(alloc, rule)?)?;
    }
    Ok(pending)
}
