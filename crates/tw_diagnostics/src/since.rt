//! Finds since when a right register is empty.

ghost use Rattle.std.specs.Prelude.{◌<◌, ◌≤◌, length};

use crate::meeting::goes_on;
use crate::place::Place;
use tw_code::Way;

/// Returns the place at which a register held its last right, on the way here by the last places that lead to the next.
pub(crate) fn last_held(at: &Place<'_>, register: u8) -> Option<usize>
    requires limit { length at.now.procedure.now.code ≤ 4096 }
    requires register { register < 16 }
{
    let mut until = at.place;
    for before in (0..at.place).rev() {
        let Some(instr) = at.code().get(before) else {
            return None;
        };
        if goes_on(Way::Completed, before, instr, until)
            || goes_on(Way::Skipped, before, instr, until)
        {
            if at.typings.get(before)?.right_at(register).is_some() {
                return Some(before);
            }
            until = before;
        }
    }
    None
}
