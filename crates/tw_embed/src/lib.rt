//! The C interface of Yuglemit, for programs in other languages.
//!
//! * `yuglemit_session_text`: the output and the status of the command `tw` with these arguments and this input; a run is single-threaded. A handle
//!   holds the output.
//! * `yuglemit_session`: likewise, by arguments in lines, and with the output in the caller's buffer.
//! * `yuglemit_raw_verify`: only the verifier. It takes the bytes of a program, and its result is in numbers.
//! * `yuglemit_raw_load_source`, `yuglemit_raw_run` and the calls on their handles: a program is loaded once, and run many times.
//!
//! The calls named `yuglemit_raw_` are called by functions of `embed/yuglemit.h`, which pass structs as lists of numbers, and copies of the handles that
//! a call only reads. So such a call writes nothing that another thread reads.
//!
//! No call starts a thread or waits for one, and no state is kept except in handles. `tw_calls` and `tw_handles` have the bodies.
#![tactic(auto)]

ghost use Rattle.std.specs.Prelude.{◌≡◌};
ghost use Rattle.tw_calls.specs.SessionAnswers.{IsAnswerKept, IsAnswered};

mod handles;
mod lists;
mod reports;
mod runs;

pub use handles::{
    yuglemit_container_free, yuglemit_container_new, yuglemit_input_int, yuglemit_input_text,
    yuglemit_inputs_free, yuglemit_member_int, yuglemit_member_int_by_text, yuglemit_member_text,
    yuglemit_member_text_by_text, yuglemit_program_free, yuglemit_raw_input_container,
    yuglemit_raw_load_source, yuglemit_raw_load_told, yuglemit_raw_program_bounds,
    yuglemit_raw_program_budget, yuglemit_raw_program_needs, yuglemit_raw_program_order,
    yuglemit_raw_program_parameter, yuglemit_raw_program_procedure,
    yuglemit_raw_program_procedures, yuglemit_raw_program_share, yuglemit_raw_verify,
    yuglemit_source_name,
};
pub use lists::{
    yuglemit_raw_input_ints, yuglemit_raw_input_ints_by_text, yuglemit_raw_input_texts,
    yuglemit_raw_input_texts_by_text,
};
pub use reports::{
    yuglemit_raw_print_json, yuglemit_raw_print_report, yuglemit_raw_print_trace,
    yuglemit_raw_report_ending, yuglemit_raw_report_find_int, yuglemit_raw_report_find_text,
    yuglemit_raw_report_instructions, yuglemit_raw_report_member, yuglemit_raw_report_member_text,
    yuglemit_raw_report_members, yuglemit_raw_report_meter, yuglemit_raw_report_order,
    yuglemit_raw_report_output, yuglemit_raw_report_subscript_text, yuglemit_raw_report_text,
    yuglemit_raw_text_copy, yuglemit_raw_text_length, yuglemit_report_free, yuglemit_text_free,
};
pub use runs::{
    yuglemit_raw_run, yuglemit_raw_stop_lower, yuglemit_raw_stop_raise, yuglemit_raw_stop_share,
    yuglemit_raw_unfit_input, yuglemit_stop_free, yuglemit_stop_new,
};
use std::alloc::Global;
use tw_handles::Handle;

/// The version: major, minor and patch, three digits each.
const VERSION: u32 = 34_000;

/// Returns the version of the library, as `YUGLEMIT_VERSION_NUMBER` of the header it is made for.
#[unsafe(no_mangle)]
pub extern "C" fn yuglemit_version() -> u32
    ensures { result ≡ 34000 }
{
    VERSION
}

/// Exports `tw_calls::session`.
#[unsafe(no_mangle)]
pub extern "C" fn yuglemit_session(
    alloc: Global,
    words: &[u8],
    input: &[u8],
    room: &mut [u8],
    status: &mut u8,
) -> usize
    ensures { IsAnswered words.now input.now room.old room.new status.new result }
{
    tw_calls::session(alloc, words, input, room, status)
}

/// Exports `tw_calls::session_text`.
#[unsafe(no_mangle)]
pub extern "C" fn yuglemit_session_text(
    alloc: Global,
    words: &[u8],
    input: &[u8],
    output: &mut Handle,
) -> u8
    ensures { IsAnswerKept words.now input.now output.old.held output.new.held result }
{
    tw_calls::session_text(alloc, words, input, output)
}
