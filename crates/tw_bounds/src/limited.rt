//! Bounds that a limit of events gives.

ghost use Rattle.std.specs.Prelude.{◌≡◌, ◌≤◌, ◌*◌, Some, if◌then◌else◌, max, nat_le};
ghost use Rattle.tw_bounds.specs.Bounds.{texts_added};
ghost use Rattle.std.specs.List.{list_any};
ghost use Rattle.tw_code.specs.accepting.Walk.{greatest_budget};
ghost use Rattle.tw_code.specs.format.Program.{IsProgram};
ghost use Rattle.tw_bounds.specs.Limited.{AreLimitedBounds, IsLargestBudget, LimitsRuns, adds_member, adds_texts, has_instr, is_on_data, makes_datum, makes_rule, most_text_registers, most_texts};
ghost use Rattle.tw_bounds.specs.Reports.{reported};

use crate::bound::Bound;
use crate::texts::{one_if, text_registers, texts_added};
use tw_code::{DataInstr, Instr, Procedure};
use tw_types::Scalar;
use tw_verify::Verified;

/// Bounds of a run with a limited number of events.
#[derive(Clone, Copy, Debug)]
pub struct LimitedBounds {
    /// Tasks that are taken, main's included.
    pub tasks: Bound,
    /// Instructions that are executed.
    pub instructions: Bound,
    /// Data made by NEW.
    pub data: Bound,
    /// Rules made by RULE.
    pub rules: Bound,
    /// Members and values that the data hold beyond those of the inputs, at any time.
    pub members: Bound,
    /// Bytes of the texts beyond those of the inputs, at any time.
    pub bytes: Bound,
    /// Events of the run.
    pub events: Bound,
}

/// Returns whether an instruction makes a datum.
fn makes_datum(instr: &Instr) -> bool
    ensures { result ≡ makes_datum instr.now }
{
    matches!(instr, Instr::Data(DataInstr::New { .. }))
}

/// Returns whether an instruction makes a rule.
fn makes_rule(instr: &Instr) -> bool
    ensures { result ≡ makes_rule instr.now }
{
    matches!(instr, Instr::Rule(_))
}

/// Returns whether a procedure has an instruction that makes a datum.
fn has_new(procedure: &Procedure) -> bool
    ensures { result ≡ list_any makes_datum procedure.now.code }
{
    procedure
        .code
        .as_slice()
        .iter()
        .any(|instr| makes_datum(instr))
}

/// Returns whether a procedure has an instruction that makes a rule.
fn has_rule(procedure: &Procedure) -> bool
    ensures { result ≡ list_any makes_rule procedure.now.code }
{
    procedure
        .code
        .as_slice()
        .iter()
        .any(|instr| makes_rule(instr))
}

/// Returns whether an event can make a datum.
fn makes_data(program: &[Procedure]) -> bool
    ensures { result ≡ has_instr makes_datum program.now }
{
    program.iter().any(|procedure| has_new(procedure))
}

/// Returns whether an event can make a rule.
fn makes_rules(program: &[Procedure]) -> bool
    ensures { result ≡ has_instr makes_rule program.now }
{
    program.iter().any(|procedure| has_rule(procedure))
}

/// Returns whether an instruction adds a member or a value.
fn adds_member(instr: &Instr) -> bool
    ensures { result ≡ is_on_data adds_member instr.now }
{
    matches!(
        instr,
        Instr::Data(
            DataInstr::Insert { .. } | DataInstr::InsertValue { .. } | DataInstr::AddValue { .. }
        )
    )
}

/// Returns whether an instruction adds at least so many texts.
fn adds_so_many(least: u64, registers: &[Scalar], instr: &Instr) -> bool
    ensures { result ≡ is_on_data (λ i. nat_le least (texts_added registers.now i)) instr.now }
{
    match instr {
        Instr::Data(i) => least <= texts_added(registers, i),
        _ => false,
    }
}

/// Returns whether a procedure has an instruction that adds a member or a value.
fn has_insert(procedure: &Procedure) -> bool
    ensures { result ≡ list_any (is_on_data adds_member) procedure.now.code }
{
    procedure
        .code
        .as_slice()
        .iter()
        .any(|instr| adds_member(instr))
}

/// Returns whether a procedure has an instruction that adds at least so many texts to the data.
fn has_texts(least: u64, procedure: &Procedure) -> bool
    ensures { result ≡ adds_texts least procedure.now }
{
    let registers = procedure.registers.as_slice();
    procedure
        .code
        .as_slice()
        .iter()
        .any(|instr| adds_so_many(least, registers, instr))
}

/// Returns whether an event can add a member or a value.
fn adds_members(program: &[Procedure]) -> bool
    ensures { result ≡ has_instr (is_on_data adds_member) program.now }
{
    program.iter().any(|procedure| has_insert(procedure))
}

/// Returns whether an event can add at least so many texts.
fn adds_texts(least: u64, program: &[Procedure]) -> bool
    ensures { result ≡ list_any (adds_texts least) program.now }
{
    program.iter().any(|procedure| has_texts(least, procedure))
}

/// Returns the bound of a run with a limit if each event makes one thing, or none does.
fn one_each(makes: bool, limit: u32) -> Bound
    ensures { result ≡ reported (Some (if makes then limit else 0)) }
{
    let number = if makes { u64::from(limit) } else { 0 };
    Bound::from_capped(Some(number))
}

/// Returns the bound of a run's bytes with a limit, if each event adds so many texts.
fn bytes_each(texts: u64, limit: u32) -> Bound
    requires { texts ≤ 16 }
    ensures { result ≡ reported (Some (4096 * (limit * texts))) }
{
    Bound::from_capped(Some(4096 * (u64::from(limit) * texts)))
}

/// Returns the larger of two numbers, for the bounds of limited runs.
fn larger(a: u64, b: u64) -> u64
    ensures { result ≡ max a b }
{
    if a < b { b } else { a }
}

/// Returns the most registers of texts that a procedure has.
fn most_text_registers(program: &[Procedure]) -> u64
    requires { IsProgram program.now }
    ensures is { result ≡ most_text_registers program.now }
    ensures few { result ≤ 16 }
{
    let mut most = 0;
    for procedure in program.iter() {
        most = larger(most, text_registers(procedure.registers.as_slice()) as u64);
    }
    most
}

/// Returns the most texts that an event adds.
fn most_texts(program: &[Procedure]) -> u64
    requires { IsProgram program.now }
    ensures is { result ≡ most_texts program.now }
    ensures few { result ≤ 16 }
{
    let added = one_if(adds_texts(1, program)) + one_if(adds_texts(2, program));
    larger(added, most_text_registers(program))
}

/// Returns the largest budget of a verified program's procedures.
pub fn largest_budget(verified: &Verified) -> u64
    ensures is { IsLargestBudget verified.now.program result }
    ensures small { result ≤ greatest_budget }
{
    let program = verified.program();
    let mut most = 0;
    for number in 0..program.procedures().len() {
        most = larger(most, verified.budget(number));
    }
    most
}

/// Returns the bounds of runs with at most `limit` events. Each event takes at most one task, executes instructions of one task,
/// and makes at most one datum or rule. It adds at most one member or value; and two texts to the data, or those of one task's registers.
pub fn limited_bounds(verified: &Verified, limit: u32) -> LimitedBounds
    ensures are { AreLimitedBounds verified.now.program limit result }
    ensures runs { LimitsRuns verified.now.program limit result }
{
    let program = verified.program();
    let procedures = program.procedures();
    LimitedBounds {
        tasks: one_each(true, limit),
        instructions: Bound::from_capped(Some(u64::from(limit) * largest_budget(verified))),
        data: one_each(makes_data(procedures), limit),
        rules: one_each(makes_rules(procedures), limit),
        members: one_each(adds_members(procedures), limit),
        bytes: bytes_each(most_texts(procedures), limit),
        events: one_each(true, limit),
    }
}
