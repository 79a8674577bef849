//! Costs of instructions, computed from the known bounds.

ghost use Rattle.std.specs.Prelude.{◌≡◌, ◌<◌, ◌≤◌, ◌^◌, IfOk, IfSome, None, filter, length};
ghost use Rattle.tw_types.specs.Mode.{is_closed_mode};
ghost use Rattle.tw_code.specs.format.Program.{IsProgram};
ghost use Rattle.tw_code.specs.machine.Arguments.{params_of};
ghost use Rattle.tw_bounds.specs.Bounds.{AreCosts, bound_at, data_weight, weight_added, weight_of, rule_events};
ghost use Rattle.tw_bounds.specs.Solving.{AreWithin, CallsUnknown};
ghost use Rattle.tw_bounds.specs.Rows.{AreSmall, most_cost};

use crate::texts::texts_added;
use crate::weights::Weights;
use std::alloc::{AllocError, Global};
use tw_code::{DataInstr, Instr, Procedure};
use tw_types::{Mode, Param, Scalar};

/// Returns the bound of the tasks of a procedure, if it is known already.
fn bound_of(known: &[Option<u64>], number: u8) -> Option<u64>
    ensures { result ≡ bound_at known.now number }
{
    known.get(usize::from(number)).copied().flatten()
}

/// Counts the `closed` parameters of a procedure that a RULE calls.
fn closed_in(params: &[Param]) -> usize
    ensures is { result ≡ length (filter (λ p. is_closed_mode p.mode) params.now) }
    ensures few { result ≤ length params.now }
{
    params
        .iter()
        .filter(|p| matches!(p.mode, Mode::Closed))
        .count()
}

/// Returns the weight of the datum, member or value that an instruction adds.
fn weight_added(weights: &Weights, instr: &DataInstr) -> u64
    ensures is { result ≡ weight_added weights.now instr.now }
    ensures small { result < 2 ^ 32 }
{
    match instr {
        DataInstr::New { .. } => u64::from(weights.datum),
        DataInstr::Insert { .. } | DataInstr::InsertValue { .. } | DataInstr::AddValue { .. } => {
            u64::from(weights.member)
        }
        _ => 0,
    }
}

/// Returns what an instruction on data adds to its own weight.
fn data_weight(weights: &Weights, registers: &[Scalar], instr: &DataInstr) -> u64
    ensures is { result ≡ data_weight weights.now registers.now instr.now }
    ensures small { result < 2 ^ 34 }
{
    weight_added(weights, instr) + u64::from(weights.text) * texts_added(registers, instr)
}

/// Returns the greatest number of events after a RULE of the procedure: an Ask and a Deliver for each `closed` parameter, and a
/// Release.
fn rule_events(program: &[Procedure], number: u8) -> u64
    requires { IsProgram program.now }
    ensures is { result ≡ rule_events (params_of program.now number) }
    ensures few { result ≤ 17 }
{
    match program.get(usize::from(number)) {
        Some(procedure) => 1 + 2 * closed_in(procedure.params.as_slice()) as u64,
        None => 1,
    }
}

/// Returns the weight of an instruction, or `None` if it calls a procedure whose bound isn't known.
pub fn instr_weight(
    program: &[Procedure],
    weights: &Weights,
    known: &[Option<u64>],
    registers: &[Scalar],
    instr: &Instr,
) -> Option<u64>
    requires limits { IsProgram program.now }
    requires within { AreWithin known.now }
    ensures is { result ≡ weight_of program.now weights.now known.now registers.now instr.now }
    ensures small { IfSome result (λ n. n ≤ most_cost) }
{
    let own = u64::from(weights.instr);
    match instr {
        Instr::Local(_) | Instr::Ret => Some(own),
        Instr::Data(i) => Some(own + data_weight(weights, registers, i)),
        Instr::Rule(action) => match bound_of(known, action.procedure) {
            Some(bound) => {
                let rule_event = u64::from(weights.rule_event)
                    * rule_events(program, action.procedure);
                Some(own + u64::from(weights.rule) + rule_event + bound)
            }
            None => None,
        },
        Instr::Put(action) => match bound_of(known, action.procedure) {
            Some(bound) => Some(own + bound),
            None => None,
        },
    }
}

/// Returns the cost of each place, or `None` if one calls a procedure whose bound isn't known.
pub fn place_costs(
    alloc: Global,
    program: &[Procedure],
    weights: &Weights,
    known: &[Option<u64>],
    registers: &[Scalar],
    code: &[Instr],
) -> Result<Option<Vec<u64>>, AllocError>
    requires limits { IsProgram program.now }
    requires within { AreWithin known.now }
    ensures costs { IfOk result (λ o. IfSome o (λ costs. AreCosts program.now weights.now known.now registers.now code.now costs.items)) }
    ensures small { IfOk result (λ o. IfSome o (λ costs. AreSmall costs.items)) }
    ensures unknown { IfOk result (λ o. o ≡ None → CallsUnknown program.now weights.now known.now registers.now code.now) }
{
    let mut costs = Vec::new(alloc);
    for instr in code.iter() {
        let Some(weight) = instr_weight(program, weights, known, registers, instr) else {
            return Ok(None);
        };
        costs.push(weight)?;
    }
    Ok(Some(costs))
}
