//! Calls on containers that are to be inputs.

ghost use Rattle.std.specs.Prelude.{◌≡◌, Some, None};
ghost use Rattle.tw_handles.specs.Containers.{IsBegun, IsContainerAdded, IsMemberAdded, IsMoved, WithText, container_in, empty_by, input_of};
ghost use Rattle.tw_handles.specs.declared.container.NewMember.TheVariants as member;

use crate::codes;
use crate::container::{Container, NewMember};
use crate::given::text_of;
use crate::handle::Handle;
use crate::held::Held;
use std::alloc::Global;
use tw_types::InputText;

/// Begins a container without members. The letter `t` of `by` is for texts as subscripts, that of `scalar` for texts as values; any other is for
/// integers. The handle's former contents are freed.
pub fn container_new(alloc: Global, container: &mut Handle, by: u8, scalar: u8) -> u8
    ensures { IsBegun (empty_by by scalar) container.old.held container.new.held result }
{
    match Handle::of_held(alloc, Held::Container(Container::empty(alloc, by, scalar))) {
        Ok(handle) => {
            *container = handle;
            codes::DONE
        }
        Err(_) => codes::NO_MEMORY,
    }
}

/// Adds a member, if the contents are a container.
fn add_held(held: &mut Held, member: NewMember) -> u8
    ensures { IsMemberAdded member (Some held.old) (Some held.new) result }
{
    match held {
        Held::Container(container) => container.push(member),
        Held::Program(_) | Held::Inputs(_) | Held::Report(_) | Held::Stop(_) | Held::Text(_) =>
            codes::NO_CONTAINER,
    }
}

/// Adds a member to the container of a handle.
fn add(alloc: Global, container: &mut Handle, member: NewMember) -> u8
    ensures { IsMemberAdded member container.old.held container.new.held result }
{
    let Some(mut whole) = container.take(alloc) else {
        return codes::NO_CONTAINER;
    };
    let code = add_held(&mut whole, member);
    *container = Handle::of(whole);
    code
}

/// Adds an integer by an integer.
pub fn put_int(alloc: Global, container: &mut Handle, subscript: i64, number: i64) -> u8
    ensures { IsMemberAdded (member.Int subscript number) container.old.held container.new.held result }
{
    add(alloc, container, NewMember::Int(subscript, number))
}

/// Adds a text by an integer.
pub fn put_text(alloc: Global, container: &mut Handle, subscript: i64, text: &[u8]) -> u8
    ensures { WithText text.now (IsMemberAdded (member.Text subscript text.now) container.old.held container.new.held result) container.old.held container.new.held result }
{
    match text_of(alloc, text) {
        Ok(text) => add(alloc, container, NewMember::Text(subscript, text)),
        Err(code) => code,
    }
}

/// Adds an integer by a text.
pub fn put_int_by_text(alloc: Global, container: &mut Handle, subscript: &[u8], number: i64) -> u8
    ensures { WithText subscript.now (IsMemberAdded (member.IntByText subscript.now number) container.old.held container.new.held result) container.old.held container.new.held result }
{
    match text_of(alloc, subscript) {
        Ok(subscript) => add(alloc, container, NewMember::IntByText(subscript, number)),
        Err(code) => code,
    }
}

/// Adds a text by a text that was read.
fn add_text(alloc: Global, container: &mut Handle, subscript: InputText, text: &[u8]) -> u8
    ensures { WithText text.now (IsMemberAdded (member.TextByText subscript text.now) container.old.held container.new.held result) container.old.held container.new.held result }
{
    match text_of(alloc, text) {
        Ok(text) => add(alloc, container, NewMember::TextByText(subscript, text)),
        Err(code) => code,
    }
}

/// Adds a text by a text.
pub fn put_text_by_text(alloc: Global, container: &mut Handle, subscript: &[u8], text: &[u8]) -> u8
    ensures { WithText subscript.now (WithText text.now (IsMemberAdded (member.TextByText subscript.now text.now) container.old.held container.new.held result) container.old.held container.new.held result) container.old.held container.new.held result }
{
    match text_of(alloc, subscript) {
        Ok(subscript) => add_text(alloc, container, subscript, text),
        Err(code) => code,
    }
}

/// Moves the members of a container, once there is memory for them.
fn move_into(alloc: Global, inputs: &mut Held, container: &mut Container) -> u8
    ensures { IsMoved (input_of container.old) (Some inputs.old) (Some inputs.new) (Some (input_of container.new)) result }
{
    match inputs {
        Held::Inputs(list) => match list.reserve(1) {
            Ok(()) => {
                list.push_reserved(container.take(alloc));
                codes::DONE
            }
            Err(_) => codes::NO_MEMORY,
        },
        Held::Program(_) | Held::Container(_) | Held::Report(_) | Held::Stop(_) | Held::Text(_) =>
            codes::NO_INPUTS,
    }
}

/// Moves the members of a container to a null handle.
fn move_first(alloc: Global, inputs: &mut Handle, container: &mut Container) -> u8
    requires { inputs.old.held ≡ None }
    ensures { IsMoved (input_of container.old) None inputs.new.held (Some (input_of container.new)) result }
{
    match Box::new(alloc, Held::Inputs(Vec::new(alloc))) {
        Ok(mut whole) => {
            let code = move_into(alloc, &mut whole, container);
            *inputs = Handle::of(whole);
            code
        }
        Err(_) => codes::NO_MEMORY,
    }
}

/// Moves the members of a container to the inputs of a handle.
fn move_container(alloc: Global, inputs: &mut Handle, container: &mut Container) -> u8
    ensures { IsMoved (input_of container.old) inputs.old.held inputs.new.held (Some (input_of container.new)) result }
{
    let Some(mut whole) = inputs.take(alloc) else {
        return move_first(alloc, inputs, container);
    };
    let code = move_into(alloc, &mut whole, container);
    *inputs = Handle::of(whole);
    code
}

/// Moves them, if the contents are a container.
fn move_held(alloc: Global, inputs: &mut Handle, held: &mut Held) -> u8
    ensures { IsContainerAdded (container_in (Some held.old)) (container_in (Some held.new)) inputs.old.held inputs.new.held result }
{
    match held {
        Held::Container(container) => move_container(alloc, inputs, container),
        Held::Program(_) | Held::Inputs(_) | Held::Report(_) | Held::Stop(_) | Held::Text(_) =>
            codes::NO_CONTAINER,
    }
}

/// Moves the members of a container to the inputs of a handle, as one input. The container has its types then, and no member. If memory runs
/// out, it keeps its members.
pub fn input_container(alloc: Global, inputs: &mut Handle, container: &mut Handle) -> u8
    ensures { IsContainerAdded (container_in container.old.held) (container_in container.new.held) inputs.old.held inputs.new.held result }
{
    let Some(mut whole) = container.take(alloc) else {
        return codes::NO_CONTAINER;
    };
    let code = move_held(alloc, inputs, &mut whole);
    *container = Handle::of(whole);
    code
}
