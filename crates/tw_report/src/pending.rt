//! The pending rules of a state of the reference machine.

ghost use Rattle.std.specs.Prelude.{◌≡◌, ◌++◌, ◌∷◌, [], map, IfOk, OnOk};
ghost use Rattle.std.specs.List.Sorted.{IsStrictlySortedBy};
ghost use Rattle.std.specs.Map.{keys_of};
ghost use Rattle.std.specs.Ordering.{nat_cmp};
ghost use Rattle.tw_code.specs.machine.Arguments.{params_of};
ghost use Rattle.tw_code.specs.machine.Pending.{pending_of, waited_for, written_by};
ghost use Rattle.tw_instr.specs.Arguments.{arg_of};
ghost use Rattle.tw_report.specs.Arguments.{pending_from};

use crate::argument::right_of;
use std::alloc::{AllocError, Global};
use std::collections::BTreeMap;
use tw_code::Procedure;
use tw_machine::{Arg, Rule};
use tw_types::{DatumId, Items, Param, Pending, RuleNo, Stage};

/// Adds the datum of an argument whose parameter waits for it.
fn put_waited(ids: &mut Vec<DatumId>, stage: Stage, arg: &Arg) -> Result<(), AllocError>
    ensures { OnOk result (ids.new.items ≡ ids.old.items ++ waited_for (stage ∷ []) (arg_of arg.now ∷ [])) }
{
    match (stage, right_of(arg)) {
        (Stage::Waiting, Some(id)) => Ok(ids.push(id)?),
        (Stage::Free | Stage::Unasked | Stage::Ready, _) | (_, None) => Ok(()),
    }
}

/// Returns the data for which parameters wait.
fn waited_for(alloc: Global, stages: &[Stage], args: &[Arg]) -> Result<Vec<DatumId>, AllocError>
    ensures { IfOk result (λ ids. ids.items ≡ waited_for stages.now (map arg_of args.now)) }
{
    let mut ids = Vec::new(alloc);
    let mut rest = args;
    for stage in stages {
        let Some((arg, others)) = rest.split_first() else {
            return Ok(ids);
        };
        put_waited(&mut ids, *stage, arg)?;
        rest = others;
    }
    Ok(ids)
}

/// Adds the datum of a `write` argument.
fn put_written(ids: &mut Vec<DatumId>, param: Param, arg: &Arg) -> Result<(), AllocError>
    ensures { OnOk result (ids.new.items ≡ ids.old.items ++ written_by (param ∷ []) (arg_of arg.now ∷ [])) }
{
    match right_of(arg) {
        Some(id) => {
            if param.mode.is_write() {
                ids.push(id)?;
            }
            Ok(())
        }
        None => Ok(()),
    }
}

/// Returns the data of `write` arguments.
fn written_by(alloc: Global, params: &[Param], args: &[Arg]) -> Result<Vec<DatumId>, AllocError>
    ensures { IfOk result (λ ids. ids.items ≡ written_by params.now (map arg_of args.now)) }
{
    let mut ids = Vec::new(alloc);
    let mut rest = args;
    for param in params {
        let Some((arg, others)) = rest.split_first() else {
            return Ok(ids);
        };
        put_written(&mut ids, *param, arg)?;
        rest = others;
    }
    Ok(ids)
}

/// Returns the parameters of a procedure, or none if it isn't known.
fn params_of(program: &[Procedure], procedure: u8) -> &[Param]
    ensures { result.now ≡ params_of program.now procedure }
{
    match program.get(usize::from(procedure)) {
        Some(procedure) => procedure.params.as_slice(),
        None => &[],
    }
}

/// Returns a pending rule with this number, and with these stages and arguments of the parameters.
fn pending_from(
    alloc: Global,
    number: RuleNo,
    params: &[Param],
    stages: &[Stage],
    args: &[Arg],
) -> Result<Pending, AllocError>
    ensures { IfOk result (λ p. p ≡ pending_from number params.now stages.now (map arg_of args.now)) }
{
    let waits = waited_for(alloc, stages, args)?;
    let writes = written_by(alloc, params, args)?;
    Ok(Pending {
        number,
        waits: Items::from(waits),
        writes: Items::from(writes),
    })
}

/// Returns a pending rule of the reference machine.
fn pending_of(
    alloc: Global,
    program: &[Procedure],
    number: u64,
    rule: &Rule,
) -> Result<Pending, AllocError>
    ensures { IfOk result (λ p. p ≡ pending_of program.now (number, rule.now)) }
{
    let params = params_of(program, rule.procedure());
    pending_from(
        alloc,
        RuleNo::new(number),
        params,
        rule.stages(),
        rule.args(),
    )
}

/// Returns the pending rules of a table, by rising number.
pub fn pending_rules(
    alloc: Global,
    program: &[Procedure],
    rules: &BTreeMap<u64, Rule>,
) -> Result<Vec<Pending>, AllocError>
    ensures is { IfOk result (λ pending. pending.items ≡ map (pending_of program.now) rules.now.entries) }
    ensures sorted { IsStrictlySortedBy nat_cmp (keys_of rules.now.entries) }
{
    let mut pending = Vec::new(alloc);
    for (number, rule) in rules {
        pending.push(pending_of(alloc, program, *number, rule)?)?;
    }
    Ok(pending)
}
