//! Exports the calls of `tw_handles` that read reports.

ghost use Rattle.std.specs.Prelude.{◌≡◌};
ghost use Rattle.tw_handles.specs.Asking.{Writes};
ghost use Rattle.tw_handles.specs.Certificates.{IsNumbered};
ghost use Rattle.tw_handles.specs.Finding.{IsPlace, IsTextPlace};
ghost use Rattle.tw_handles.specs.Many.{AreReadIn};
ghost use Rattle.tw_handles.specs.Members.{IsMemberIn, IsMemberTextIn, IsSubscriptTextIn};
ghost use Rattle.tw_handles.specs.Meter.{meter_of};
ghost use Rattle.tw_handles.specs.Numbers.{Fills};
ghost use Rattle.tw_handles.specs.Reading.{IsOutputIn, IsOutputTextIn, WithOutputs, WithReport, ending_of};
ghost use Rattle.tw_handles.specs.Texts.{IsJsonIn, IsReportOf, IsTextCopied, IsTextLength, IsTextMade, IsTrace, executed};
ghost use Rattle.tw_types.specs.declared.value.Value.TheVariants as value;

use std::alloc::Global;
use tw_handles::{Handle, Item, Member, NO_UTF8, outputs_of, reading, report_of, text_of};
use tw_types::ValueRef;

/// Exports `tw_handles::report_ending`.
#[unsafe(no_mangle)]
pub extern "C" fn yuglemit_raw_report_ending(
    alloc: Global,
    report: &mut Handle,
    numbers: &mut [u64],
) -> u8
    ensures kept { report.new.held ≡ report.old.held }
    ensures is { WithReport (λ run. Fills (ending_of run.left)) report.old.held numbers.old numbers.new result }
{
    reading!(alloc, report, report_of, run => tw_handles::report_ending(&run.left, numbers))
}

/// Exports `tw_handles::output`.
#[unsafe(no_mangle)]
pub extern "C" fn yuglemit_raw_report_output(
    alloc: Global,
    report: &mut Handle,
    index: usize,
    item: &mut Item,
) -> u8
    ensures kept { report.new.held ≡ report.old.held }
    ensures is { WithOutputs (λ final. IsOutputIn final index) report.old.held item.old item.new result }
{
    reading!(alloc, report, outputs_of, outcome => tw_handles::output(outcome, index, item))
}

/// Exports `tw_handles::output_text`.
#[unsafe(no_mangle)]
pub extern "C" fn yuglemit_raw_report_text(
    alloc: Global,
    report: &mut Handle,
    index: usize,
    room: &mut [u8],
) -> u8
    ensures kept { report.new.held ≡ report.old.held }
    ensures is { WithOutputs (λ final. IsOutputTextIn final index) report.old.held room.old room.new result }
{
    reading!(alloc, report, outputs_of, outcome => tw_handles::output_text(outcome, index, room))
}

/// Exports `tw_handles::output_member`.
#[unsafe(no_mangle)]
pub extern "C" fn yuglemit_raw_report_member(
    alloc: Global,
    report: &mut Handle,
    index: usize,
    place: usize,
    member: &mut Member,
) -> u8
    ensures kept { report.new.held ≡ report.old.held }
    ensures is { WithOutputs (λ final. IsMemberIn final index place) report.old.held member.old member.new result }
{
    reading!(alloc, report, outputs_of, outcome => tw_handles::output_member(outcome, index, place, member))
}

/// Exports `tw_handles::output_members`.
#[unsafe(no_mangle)]
pub extern "C" fn yuglemit_raw_report_members(
    alloc: Global,
    report: &mut Handle,
    index: usize,
    first: usize,
    members: &mut [Member],
) -> u8
    ensures kept { report.new.held ≡ report.old.held }
    ensures is { WithOutputs (λ final. AreReadIn final index first) report.old.held members.old members.new result }
{
    reading!(alloc, report, outputs_of, outcome => tw_handles::output_members(outcome, index, first, members))
}

/// Exports `tw_handles::member_text`.
#[unsafe(no_mangle)]
pub extern "C" fn yuglemit_raw_report_member_text(
    alloc: Global,
    report: &mut Handle,
    index: usize,
    place: usize,
    room: &mut [u8],
) -> u8
    ensures kept { report.new.held ≡ report.old.held }
    ensures is { WithOutputs (λ final. IsMemberTextIn final index place) report.old.held room.old room.new result }
{
    reading!(alloc, report, outputs_of, outcome => tw_handles::member_text(outcome, index, place, room))
}

/// Exports `tw_handles::subscript_text`.
#[unsafe(no_mangle)]
pub extern "C" fn yuglemit_raw_report_subscript_text(
    alloc: Global,
    report: &mut Handle,
    index: usize,
    place: usize,
    room: &mut [u8],
) -> u8
    ensures kept { report.new.held ≡ report.old.held }
    ensures is { WithOutputs (λ final. IsSubscriptTextIn final index place) report.old.held room.old room.new result }
{
    reading!(alloc, report, outputs_of, outcome => tw_handles::subscript_text(outcome, index, place, room))
}

/// Exports `tw_handles::find` for an integer.
#[unsafe(no_mangle)]
pub extern "C" fn yuglemit_raw_report_find_int(
    alloc: Global,
    report: &mut Handle,
    index: usize,
    subscript: i64,
    place: &mut usize,
) -> u8
    ensures kept { report.new.held ≡ report.old.held }
    ensures is { IsPlace report.old.held index (value.Int subscript) place.old place.new result }
{
    let named = ValueRef::Int(subscript);
    reading!(alloc, report, outputs_of, outcome => tw_handles::find(outcome, index, named, place))
}

/// Exports `tw_handles::find` for a text.
#[unsafe(no_mangle)]
pub extern "C" fn yuglemit_raw_report_find_text(
    alloc: Global,
    report: &mut Handle,
    index: usize,
    subscript: &[u8],
    place: &mut usize,
) -> u8
    ensures kept { report.new.held ≡ report.old.held }
    ensures is { IsTextPlace subscript.now report.old.held index place.old place.new result }
{
    match str::from_utf8(subscript) {
        Ok(text) => {
            let named = ValueRef::Text(text);
            reading!(alloc, report, outputs_of, outcome => tw_handles::find(outcome, index, named, place))
        }
        Err(_) => NO_UTF8,
    }
}

/// Exports `tw_handles::report_meter`.
#[unsafe(no_mangle)]
pub extern "C" fn yuglemit_raw_report_meter(
    alloc: Global,
    report: &mut Handle,
    numbers: &mut [u64],
) -> u8
    ensures kept { report.new.held ≡ report.old.held }
    ensures is { WithReport (λ run. Fills (meter_of run.left)) report.old.held numbers.old numbers.new result }
{
    reading!(alloc, report, report_of, run => tw_handles::report_meter(&run.left, numbers))
}

/// Exports `tw_handles::report_order`.
#[unsafe(no_mangle)]
pub extern "C" fn yuglemit_raw_report_order(
    alloc: Global,
    report: &mut Handle,
    numbers: &mut [u64],
) -> u8
    ensures kept { report.new.held ≡ report.old.held }
    ensures is { WithReport (λ run. IsNumbered run.certificate) report.old.held numbers.old numbers.new result }
{
    reading!(alloc, report, report_of, run => tw_handles::report_order(run.certificate, numbers))
}

/// Exports `tw_handles::instructions`.
#[unsafe(no_mangle)]
pub extern "C" fn yuglemit_raw_report_instructions(
    alloc: Global,
    report: &mut Handle,
    count: &mut u64,
) -> u8
    ensures kept { report.new.held ≡ report.old.held }
    ensures is { WithReport (λ run. Writes (executed run.left)) report.old.held count.old count.new result }
{
    reading!(alloc, report, report_of, run => tw_handles::instructions(&run.left, count))
}

/// Exports `tw_handles::print_report`.
#[unsafe(no_mangle)]
pub extern "C" fn yuglemit_raw_print_report(
    alloc: Global,
    report: &mut Handle,
    text: &mut Handle,
) -> u8
    ensures kept { report.new.held ≡ report.old.held }
    ensures is { WithReport (λ run. IsTextMade (IsReportOf run.left)) report.old.held text.old.held text.new.held result }
{
    reading!(alloc, report, report_of, run => tw_handles::print_report(alloc, &run.left, text))
}

/// Exports `tw_handles::print_trace`.
#[unsafe(no_mangle)]
pub extern "C" fn yuglemit_raw_print_trace(
    alloc: Global,
    report: &mut Handle,
    text: &mut Handle,
) -> u8
    ensures kept { report.new.held ≡ report.old.held }
    ensures is { WithReport (λ run. IsTextMade (IsTrace run.left)) report.old.held text.old.held text.new.held result }
{
    reading!(alloc, report, report_of, run => tw_handles::print_trace(alloc, &run.left, text))
}

/// Exports `tw_handles::print_json`.
#[unsafe(no_mangle)]
pub extern "C" fn yuglemit_raw_print_json(
    alloc: Global,
    report: &mut Handle,
    text: &mut Handle,
) -> u8
    ensures kept { report.new.held ≡ report.old.held }
    ensures is { WithReport (λ run. IsJsonIn run.left) report.old.held text.old.held text.new.held result }
{
    reading!(alloc, report, report_of, run => tw_handles::print_json(alloc, &run.left, text))
}

/// Exports `tw_handles::text_length`.
#[unsafe(no_mangle)]
pub extern "C" fn yuglemit_raw_text_length(
    alloc: Global,
    text: &mut Handle,
    length: &mut usize,
) -> u8
    ensures kept { text.new.held ≡ text.old.held }
    ensures is { IsTextLength text.old.held length.old length.new result }
{
    reading!(alloc, text, text_of, bytes => tw_handles::text_length(bytes, length))
}

/// Exports `tw_handles::fill`.
#[unsafe(no_mangle)]
pub extern "C" fn yuglemit_raw_text_copy(alloc: Global, text: &mut Handle, room: &mut [u8]) -> u8
    ensures kept { text.new.held ≡ text.old.held }
    ensures is { IsTextCopied text.old.held room.old room.new result }
{
    reading!(alloc, text, text_of, bytes => tw_handles::fill(bytes, room))
}

/// Frees the contents of a report's handle.
#[unsafe(no_mangle)]
pub extern "C" fn yuglemit_report_free(report: Handle) {
    report.drop();
}

/// Frees the contents of a text's handle.
#[unsafe(no_mangle)]
pub extern "C" fn yuglemit_text_free(text: Handle) {
    text.drop();
}
