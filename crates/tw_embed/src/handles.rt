//! Exports the calls of `tw_handles` that load programs, describe them, and make inputs.

ghost use Rattle.std.specs.Prelude.{◌≡◌, length};
ghost use Rattle.tw_handles.specs.Asking.{IsBudgetIn, IsShare, WithProgram, Writes};
ghost use Rattle.tw_handles.specs.Caps.{AreBoundsIn};
ghost use Rattle.tw_handles.specs.Containers.{IsBegun, IsContainerAdded, IsMemberAdded, WithText, container_in, empty_by};
ghost use Rattle.tw_handles.specs.EventOrder.{IsOrderFound};
ghost use Rattle.tw_handles.specs.Loading.{IsLoading, IsVerified};
ghost use Rattle.tw_handles.specs.Numbers.{Fills};
ghost use Rattle.tw_handles.specs.Running.{IsAdded};
ghost use Rattle.tw_handles.specs.Shape.{IsNameRead, IsParameterIn, IsSectionIn, needs_of};
ghost use Rattle.tw_handles.specs.Texts.{MayBeTold};
ghost use Rattle.tw_handles.specs.declared.container.NewMember.TheVariants as member;
ghost use Rattle.tw_verdict.specs.Format.{format_of};
ghost use Rattle.tw_types.specs.declared.input.Input.TheVariants as input;

use std::alloc::Global;
use tw_handles::{Handle, program_of, reading, shared_of};

/// Exports `tw_handles::verify`.
#[unsafe(no_mangle)]
pub extern "C" fn yuglemit_raw_verify(alloc: Global, bytes: &[u8], numbers: &mut [u64]) -> u8
    ensures { IsVerified bytes.now numbers.old numbers.new result }
{
    tw_handles::verify(alloc, bytes, numbers)
}

/// Exports `tw_handles::load_source`.
#[unsafe(no_mangle)]
pub extern "C" fn yuglemit_raw_load_source(
    alloc: Global,
    source: &[u8],
    format: u8,
    options: &[u64],
    program: &mut Handle,
    numbers: &mut [u64],
) -> u8
    ensures { IsLoading (format_of format source.now) options.now source.now program.old.held program.new.held numbers.old numbers.new result }
{
    tw_handles::load_source(alloc, source, format, options, program, numbers)
}

/// Exports `tw_handles::load_told`.
#[unsafe(no_mangle)]
pub extern "C" fn yuglemit_raw_load_told(
    alloc: Global,
    source: &[u8],
    format: u8,
    options: &[u64],
    program: &mut Handle,
    numbers: &mut [u64],
    words: &mut Handle,
) -> u8
    ensures loading { IsLoading (format_of format source.now) options.now source.now program.old.held program.new.held numbers.old numbers.new result }
    ensures words { MayBeTold words.old.held words.new.held }
{
    tw_handles::load_told(alloc, source, format, options, program, numbers, words)
}

/// Exports `tw_handles::share`.
#[unsafe(no_mangle)]
pub extern "C" fn yuglemit_raw_program_share(
    alloc: Global,
    program: &mut Handle,
    other: &mut Handle,
) -> u8
    ensures kept { program.new.held ≡ program.old.held }
    ensures is { WithProgram IsShare program.old.held other.old.held other.new.held result }
{
    reading!(alloc, program, shared_of, shared => tw_handles::share(alloc, shared, other))
}

/// Exports `tw_handles::procedures`.
#[unsafe(no_mangle)]
pub extern "C" fn yuglemit_raw_program_procedures(
    alloc: Global,
    program: &mut Handle,
    count: &mut usize,
) -> u8
    ensures kept { program.new.held ≡ program.old.held }
    ensures is { WithProgram (λ verified. Writes (length verified.program)) program.old.held count.old count.new result }
{
    reading!(alloc, program, program_of, verified => tw_handles::procedures(verified, count))
}

/// Exports `tw_handles::budget`.
#[unsafe(no_mangle)]
pub extern "C" fn yuglemit_raw_program_budget(
    alloc: Global,
    program: &mut Handle,
    procedure: usize,
    budget: &mut u64,
) -> u8
    ensures kept { program.new.held ≡ program.old.held }
    ensures is { WithProgram (λ verified. IsBudgetIn verified procedure) program.old.held budget.old budget.new result }
{
    reading!(alloc, program, program_of, verified => tw_handles::budget(verified, procedure, budget))
}

/// Exports `tw_handles::program_bounds`.
#[unsafe(no_mangle)]
pub extern "C" fn yuglemit_raw_program_bounds(
    alloc: Global,
    program: &mut Handle,
    limit: usize,
    numbers: &mut [u64],
) -> u8
    ensures kept { program.new.held ≡ program.old.held }
    ensures is { WithProgram (λ verified. AreBoundsIn verified limit) program.old.held numbers.old numbers.new result }
{
    reading!(alloc, program, program_of, verified => tw_handles::program_bounds(alloc, verified, limit, numbers))
}

/// Exports `tw_handles::program_order`.
#[unsafe(no_mangle)]
pub extern "C" fn yuglemit_raw_program_order(
    alloc: Global,
    program: &mut Handle,
    numbers: &mut [u64],
) -> u8
    ensures kept { program.new.held ≡ program.old.held }
    ensures is { WithProgram IsOrderFound program.old.held numbers.old numbers.new result }
{
    reading!(alloc, program, program_of, verified => tw_handles::program_order(alloc, verified, numbers))
}

/// Exports `tw_handles::describe_procedure`.
#[unsafe(no_mangle)]
pub extern "C" fn yuglemit_raw_program_procedure(
    alloc: Global,
    program: &mut Handle,
    procedure: usize,
    numbers: &mut [u64],
) -> u8
    ensures kept { program.new.held ≡ program.old.held }
    ensures is { WithProgram (λ verified. IsSectionIn verified procedure) program.old.held numbers.old numbers.new result }
{
    reading!(alloc, program, program_of, verified => tw_handles::describe_procedure(verified, procedure, numbers))
}

/// Exports `tw_handles::describe_parameter`.
#[unsafe(no_mangle)]
pub extern "C" fn yuglemit_raw_program_parameter(
    alloc: Global,
    program: &mut Handle,
    procedure: usize,
    index: usize,
    numbers: &mut [u64],
) -> u8
    ensures kept { program.new.held ≡ program.old.held }
    ensures is { WithProgram (λ verified. IsParameterIn verified procedure index) program.old.held numbers.old numbers.new result }
{
    reading!(alloc, program, program_of, verified => tw_handles::describe_parameter(verified, procedure, index, numbers))
}

/// Exports `tw_handles::read_needs`.
#[unsafe(no_mangle)]
pub extern "C" fn yuglemit_raw_program_needs(
    alloc: Global,
    program: &mut Handle,
    numbers: &mut [u64],
) -> u8
    ensures kept { program.new.held ≡ program.old.held }
    ensures is { WithProgram (λ verified. Fills (needs_of verified)) program.old.held numbers.old numbers.new result }
{
    reading!(alloc, program, program_of, verified => tw_handles::read_needs(verified, numbers))
}

/// Exports `tw_handles::source_name`.
#[unsafe(no_mangle)]
pub extern "C" fn yuglemit_source_name(
    alloc: Global,
    source: &[u8],
    procedure: usize,
    text: &mut Handle,
) -> u8
    ensures { IsNameRead source.now procedure text.old.held text.new.held result }
{
    tw_handles::source_name(alloc, source, procedure, text)
}

/// Exports `tw_handles::input_int`.
#[unsafe(no_mangle)]
pub extern "C" fn yuglemit_input_int(alloc: Global, inputs: &mut Handle, number: i64) -> u8
    ensures { IsAdded (input.Int number) inputs.old.held inputs.new.held result }
{
    tw_handles::input_int(alloc, inputs, number)
}

/// Exports `tw_handles::input_text`.
#[unsafe(no_mangle)]
pub extern "C" fn yuglemit_input_text(alloc: Global, inputs: &mut Handle, text: &[u8]) -> u8
    ensures { WithText text.now (IsAdded (input.Text text.now) inputs.old.held inputs.new.held result) inputs.old.held inputs.new.held result }
{
    tw_handles::input_text(alloc, inputs, text)
}

/// Exports `tw_handles::container_new`.
#[unsafe(no_mangle)]
pub extern "C" fn yuglemit_container_new(
    alloc: Global,
    container: &mut Handle,
    by: u8,
    scalar: u8,
) -> u8
    ensures { IsBegun (empty_by by scalar) container.old.held container.new.held result }
{
    tw_handles::container_new(alloc, container, by, scalar)
}

/// Exports `tw_handles::put_int`.
#[unsafe(no_mangle)]
pub extern "C" fn yuglemit_member_int(
    alloc: Global,
    container: &mut Handle,
    subscript: i64,
    number: i64,
) -> u8
    ensures { IsMemberAdded (member.Int subscript number) container.old.held container.new.held result }
{
    tw_handles::put_int(alloc, container, subscript, number)
}

/// Exports `tw_handles::put_text`.
#[unsafe(no_mangle)]
pub extern "C" fn yuglemit_member_text(
    alloc: Global,
    container: &mut Handle,
    subscript: i64,
    text: &[u8],
) -> u8
    ensures { WithText text.now (IsMemberAdded (member.Text subscript text.now) container.old.held container.new.held result) container.old.held container.new.held result }
{
    tw_handles::put_text(alloc, container, subscript, text)
}

/// Exports `tw_handles::put_int_by_text`.
#[unsafe(no_mangle)]
pub extern "C" fn yuglemit_member_int_by_text(
    alloc: Global,
    container: &mut Handle,
    subscript: &[u8],
    number: i64,
) -> u8
    ensures { WithText subscript.now (IsMemberAdded (member.IntByText subscript.now number) container.old.held container.new.held result) container.old.held container.new.held result }
{
    tw_handles::put_int_by_text(alloc, container, subscript, number)
}

/// Exports `tw_handles::put_text_by_text`.
#[unsafe(no_mangle)]
pub extern "C" fn yuglemit_member_text_by_text(
    alloc: Global,
    container: &mut Handle,
    subscript: &[u8],
    text: &[u8],
) -> u8
    ensures { WithText subscript.now (WithText text.now (IsMemberAdded (member.TextByText subscript.now text.now) container.old.held container.new.held result) container.old.held container.new.held result) container.old.held container.new.held result }
{
    tw_handles::put_text_by_text(alloc, container, subscript, text)
}

/// Exports `tw_handles::input_container`.
#[unsafe(no_mangle)]
pub extern "C" fn yuglemit_raw_input_container(
    alloc: Global,
    inputs: &mut Handle,
    container: &mut Handle,
) -> u8
    ensures { IsContainerAdded (container_in container.old.held) (container_in container.new.held) inputs.old.held inputs.new.held result }
{
    tw_handles::input_container(alloc, inputs, container)
}

/// Frees the contents of a program's handle.
#[unsafe(no_mangle)]
pub extern "C" fn yuglemit_program_free(program: Handle) {
    program.drop();
}

/// Frees the contents of a handle of inputs.
#[unsafe(no_mangle)]
pub extern "C" fn yuglemit_inputs_free(inputs: Handle) {
    inputs.drop();
}

/// Frees what the handle of a container holds.
#[unsafe(no_mangle)]
pub extern "C" fn yuglemit_container_free(container: Handle) {
    container.drop();
}
