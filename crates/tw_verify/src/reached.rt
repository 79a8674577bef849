//! Typings that reach later places.

ghost use Rattle.std.specs.Prelude.{◌≡◌, ℕ, ◌<◌, Option, Some, None, length, slice_get, IfOk, ◌^◌};
ghost use Rattle.tw_code.specs.accepting.Flow.{flow_of, onward};
ghost use Rattle.tw_code.specs.format.Program.{IsInstr};
ghost use Rattle.tw_code.specs.accepting.Typing.{after};
ghost use Rattle.tw_code.specs.declared.flow.Way.TheVariants.{Completed, Skipped};
ghost use Rattle.tw_verify.specs.Passes.{noted, sent, first_row};
ghost use Rattle.tw_verify.specs.declared.reached.Reached.{Reached};

use crate::typing::Typing;
use std::alloc::{AllocError, Global};
use tw_code::{Flow, Instr, Procedure, Way};

/// The typings that have reached a place so far: the first one, and whether another one differs from it.
#[derive(Clone, Copy)]
pub(crate) struct Reached {
    pub(crate) typing: Typing,
    pub(crate) differs: bool,
}

/// Records that a typing reaches a place. A second, different one sets `differs` (V07).
fn note(reached: Option<Reached>, typing: Typing) -> Option<Reached>
    ensures { result ≡ noted reached typing }
{
    match reached {
        None => Some(Reached {
            typing,
            differs: false,
        }),
        Some(r) => Some(Reached {
            typing: r.typing,
            differs: r.differs || !r.typing.is_same(&typing),
        }),
    }
}

/// Returns the later place where an instruction continues with this outcome, if there is one.
pub fn next_place(way: Way, place: usize, flow: Flow) -> Option<usize>
    requires { place < 2 ^ 32 }
    ensures { result ≡ onward way place flow }
{
    match way {
        Way::Completed => match flow {
            Flow::Straight | Flow::Branch(_) | Flow::Begin(_) | Flow::Close => Some(place + 1),
            Flow::Jump(skip) => Some(place + 1 + skip as usize),
            Flow::Stop => None,
        },
        Way::Skipped => match flow {
            Flow::Branch(skip) => Some(place + 1 + skip as usize),
            Flow::Straight | Flow::Jump(_) | Flow::Begin(_) | Flow::Close | Flow::Stop => None,
        },
    }
}

/// Notes a typing at the place that it reaches, if that is in the code.
fn send(rows: &mut [Option<Reached>], to: Option<usize>, typing: Typing)
    ensures { (q : ℕ) (r : Option Reached) → slice_get rows.old q ≡ Some r
        → slice_get rows.new q ≡ Some (sent to typing q r) }
{
    if let Some(place) = to {
        if place < rows.len() {
            rows[place] = note(rows[place], typing);
        }
    }
}

/// Notes the typings after both outcomes of an instruction, `Completed` first.
pub(crate) fn send_both(
    rows: &mut [Option<Reached>],
    procedures: &[Procedure],
    place: usize,
    instr: &Instr,
    typing: Typing,
)
    requires operands { IsInstr instr.now }
    requires short { place < 2 ^ 32 }
    ensures { (q : ℕ) (r : Option Reached) → slice_get rows.old q ≡ Some r
        → slice_get rows.new q
        ≡ Some (sent (onward Skipped place (flow_of instr.now)) (after procedures.now Skipped instr.now typing) q
        (sent (onward Completed place (flow_of instr.now)) (after procedures.now Completed instr.now typing) q r)) }
{
    let flow = instr.flow();
    let done = typing.after(procedures, Way::Completed, instr);
    send(rows, next_place(Way::Completed, place, flow), done);
    let refused = typing.after(procedures, Way::Skipped, instr);
    send(rows, next_place(Way::Skipped, place, flow), refused);
}

/// Returns the table before any instruction: the parameters' typing has reached the first place, and nothing any other.
pub(crate) fn first_rows(
    alloc: Global,
    count: usize,
    start: Typing,
) -> Result<Vec<Option<Reached>>, AllocError>
    requires { 0 < count }
    ensures { IfOk result (λ rows. (length rows.items ≡ count)
        × ((q : ℕ) (r : Option Reached) → slice_get rows.items q ≡ Some r → r ≡ first_row start q)) }
{
    let mut rows = vec![in alloc; None; count]?;
    rows[0] = Some(Reached {
        typing: start,
        differs: false,
    });
    Ok(rows)
}

/// Returns what has reached a place: a typing, and whether typings differ there.
pub(crate) fn row_at(rows: &[Option<Reached>], place: usize) -> Option<Reached>
    requires { place < length rows.now }
    ensures { slice_get rows.now place ≡ Some result }
{
    rows[place]
}
