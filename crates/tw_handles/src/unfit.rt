//! The input that a program's main rejects.

ghost use Rattle.tw_handles.specs.Unfit.{IsUnfitIn};

use crate::codes;
use tw_code::has_input_count;
use tw_replay_output::first_unfit;
use tw_types::Input;
use tw_verify::Verified;

/// Writes the index, from 0, of the first input that doesn't fit its parameter of main, because of which a run returns the code of O02. Returns
/// `INPUT_COUNT` if there are more or fewer inputs than main takes, and `NO_INDEX` if each fits.
pub fn unfit_input(verified: &Verified, inputs: &[Input], index: &mut usize) -> u8
    ensures { IsUnfitIn verified.now.program inputs.now index.old index.new result }
{
    let program = verified.program().procedures();
    if !has_input_count(program, inputs) {
        return codes::INPUT_COUNT;
    }
    match first_unfit(program, inputs) {
        Some(first) => {
            *index = first;
            codes::DONE
        }
        None => codes::NO_INDEX,
    }
}
