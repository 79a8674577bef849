//! Finds insertions into containers and maps of marked registers.

ghost use Rattle.std.specs.Prelude.{◌≡◌, ◌<◌, ◌≤◌, ◌^◌, ℕ, MatchOption};
ghost use Rattle.tw_code.specs.format.Program.{IsProgram};
ghost use Rattle.tw_copies.specs.Copies.{InsertsInto, IsFirst, Nowhere};
ghost use Rattle.tw_copies.specs.Marks.{InsertsMarked, IsMarked, IsMarkedInsertion};

use crate::check::CopyInsertion;
use crate::marks::is_marked;
use tw_code::{DataInstr, Instr, Procedure};

/// Returns the right register of the container or map, if the instruction inserts into one.
fn container_of(instr: &Instr) -> Option<u8>
    ensures { MatchOption result ((register : ℕ) → InsertsInto instr.now register → ⊥) (InsertsInto instr.now) }
{
    match instr {
        Instr::Data(DataInstr::Insert { container, .. }) => Some(*container),
        Instr::Data(DataInstr::InsertValue { map, .. }) => Some(*map),
        Instr::Data(_) | Instr::Local(_) | Instr::Rule(_) | Instr::Put(_) | Instr::Ret => None,
    }
}

/// Returns the register of the container or map, if the instruction inserts and the register is marked.
fn marked_container(marks: &[bool], number: usize, instr: &Instr) -> Option<u8>
    requires { number < 2 ^ 16 }
    ensures { MatchOption result ((register : ℕ) → InsertsInto instr.now register → IsMarked marks.now number register → ⊥)
        (λ register. InsertsInto instr.now register × IsMarked marks.now number register) }
{
    container_of(instr).filter(|register| is_marked(marks, number, *register))
}

/// Returns the first place that inserts into a container or map of a marked register.
fn insertion_in(marks: &[bool], number: usize, code: &[Instr]) -> Option<usize>
    requires { number < 2 ^ 16 }
    ensures { MatchOption result ((place : ℕ) → InsertsMarked marks.now number code.now place → ⊥)
        (λ first. InsertsMarked marks.now number code.now first × ((place : ℕ) → InsertsMarked marks.now number code.now place → first ≤ place)) }
{
    for (place, instr) in code.iter().enumerate() {
        if let Some(_register) = marked_container(marks, number, instr) {
            return Some(place);
        }
    }
    None
}

/// Returns the first place of a program that inserts by a register marked as holding copies.
pub(crate) fn first_insertion(program: &[Procedure], marks: &[bool]) -> Option<CopyInsertion>
    requires { IsProgram program.now }
    ensures { MatchOption result (Nowhere (IsMarkedInsertion program.now marks.now))
        (λ at. IsFirst (IsMarkedInsertion program.now marks.now) at.procedure at.place) }
{
    for (procedure, found) in program.iter().enumerate() {
        if let Some(place) = insertion_in(marks, procedure, found.code.as_slice()) {
            return Some(CopyInsertion { procedure, place });
        }
    }
    None
}
