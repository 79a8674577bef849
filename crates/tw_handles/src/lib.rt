//! Handles for other languages: a program is loaded once, and run many times. `tw_embed` exports the calls.
#![tactic(auto)]

mod bounds;
mod caps;
mod certificate;
mod codes;
mod container;
mod containers;
mod event_order;
mod finding;
mod finished;
mod given;
mod handle;
mod held;
mod item;
mod lists;
mod loading;
mod loose;
mod many;
mod members;
mod meter;
mod numbers;
mod printing;
mod program;
mod report;
mod run_order;
mod running;
mod shape;
mod shown;
mod stopping;
mod texts;
mod unfit;
mod view;

pub use bounds::program_bounds;
pub use certificate::Certificate;
pub use codes::NO_UTF8;
pub use containers::{
    container_new, input_container, put_int, put_int_by_text, put_text, put_text_by_text,
};
pub use event_order::program_order;
pub use finding::find;
pub use finished::Finished;
pub use given::{input_int, input_text};
pub use handle::Handle;
pub use held::Held;
pub use item::{Item, fill};
pub use lists::{input_ints, input_ints_by_text, input_texts, input_texts_by_text};
pub use loading::{load_source, load_told, verify};
pub use many::output_members;
pub use members::{Member, member_text, output_member, subscript_text};
pub use meter::report_meter;
pub use printing::{instructions, print_json, print_report, print_trace};
pub use program::{budget, procedures, share};
pub use report::{output, output_text, report_ending};
pub use run_order::report_order;
pub use running::{RunOrder, run};
pub use shape::{describe_parameter, describe_procedure, read_needs, source_name};
pub use stopping::{stop_lower, stop_new, stop_raise, stop_share};
pub use texts::{take_text, text_handle, text_length};
pub use unfit::unfit_input;
pub use view::{inputs_of, outputs_of, program_of, report_of, shared_of, stop_of, text_of};
