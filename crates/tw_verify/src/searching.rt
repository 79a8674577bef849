//! Code with instructions that may take microseconds: searches in texts, and READI.

ghost use Rattle.std.specs.Prelude.{◌≡◌, ◌≤◌};
ghost use Rattle.std.specs.List.{list_any};
ghost use Rattle.tw_verify.specs.Searching.{has_slow, is_search, is_slow, search_count, searching};

use tw_code::{Instr, LocalInstr, Procedure};

/// Returns whether an instruction is FIND, SPAN or UNTIL.
fn is_search(instr: &Instr) -> bool
    ensures { result ≡ is_search instr.now }
{
    matches!(instr, Instr::Local(LocalInstr::Seek { .. }))
}

/// Returns whether an instruction may take microseconds.
fn is_slow(instr: &Instr) -> bool
    ensures { result ≡ is_slow instr.now }
{
    matches!(
        instr,
        Instr::Local(LocalInstr::Seek { .. } | LocalInstr::ReadInt { .. })
    )
}

/// Returns whether code has an instruction that may take microseconds.
pub(crate) fn has_slow(code: &[Instr]) -> bool
    ensures { result ≡ has_slow code.now }
{
    code.iter().any(|instr| is_slow(instr))
}

/// Returns whether a procedure has a search.
fn searches(procedure: &Procedure) -> bool
    ensures { result ≡ list_any is_search procedure.now.code }
{
    procedure
        .code
        .as_slice()
        .iter()
        .any(|instr| is_search(instr))
}

/// Returns 1 for a procedure with a search, else 0.
fn search_count(procedure: &Procedure) -> usize
    ensures is { result ≡ search_count procedure.now }
    ensures most { result ≤ 1 }
{
    if searches(procedure) { 1 } else { 0 }
}

/// Returns how many procedures have a search.
pub(crate) fn searching(procedures: &[Procedure]) -> usize
    ensures { result ≡ searching procedures.now }
{
    let mut count = 0;
    for procedure in procedures {
        count += search_count(procedure);
    }
    count
}
