//! A container that is to be an input.

ghost use Rattle.std.specs.Prelude.{◌≡◌, Some};
ghost use Rattle.tw_handles.specs.Containers.{IsLonger, IsPut, empty_by, emptied, input_of, with_member};

use crate::codes;
use std::alloc::Global;
use std::mem::replace;
use tw_types::{Input, InputText, Items};

/// The members of a container, by its types: subscripts and values.
#[derive(Drop)]
pub enum Container {
    Ints(Vec<(i64, i64)>),
    Texts(Vec<(i64, InputText)>),
    IntsByText(Vec<(InputText, i64)>),
    TextsByText(Vec<(InputText, InputText)>),
}

/// A member that is to be added: its subscript and its value.
#[derive(Drop)]
pub enum NewMember {
    Int(i64, i64),
    Text(i64, InputText),
    IntByText(InputText, i64),
    TextByText(InputText, InputText),
}

impl Container {
    /// Returns an empty container of these types: the letter `t` is a text, any other an integer.
    pub(crate) fn empty(alloc: Global, by: u8, scalar: u8) -> Container
        ensures { input_of result ≡ empty_by by scalar }
    {
        if by == b't' {
            if scalar == b't' {
                Container::TextsByText(Vec::new(alloc))
            } else {
                Container::IntsByText(Vec::new(alloc))
            }
        } else if scalar == b't' {
            Container::Texts(Vec::new(alloc))
        } else {
            Container::Ints(Vec::new(alloc))
        }
    }

    /// Takes the members out, as an input.
    pub(crate) fn take(&mut self, alloc: Global) -> Input
        ensures taken { result ≡ input_of self.old }
        ensures empty { input_of self.new ≡ emptied (input_of self.old) }
    {
        match self {
            Container::Ints(members) => Input::Ints(Items::from(replace(members, Vec::new(alloc)))),
            Container::Texts(members) => {
                Input::Texts(Items::from(replace(members, Vec::new(alloc))))
            }
            Container::IntsByText(members) => {
                Input::IntsByText(Items::from(replace(members, Vec::new(alloc))))
            }
            Container::TextsByText(members) => {
                Input::TextsByText(Items::from(replace(members, Vec::new(alloc))))
            }
        }
    }

    /// Adds a member at the end, if it has the container's types.
    pub(crate) fn push(&mut self, member: NewMember) -> u8
        ensures { IsLonger (with_member member) (Some (input_of self.old)) (Some (input_of self.new)) result }
    {
        match (self, member) {
            (Container::Ints(members), NewMember::Int(subscript, number)) => {
                put(members, (subscript, number))
            }
            (Container::Texts(members), NewMember::Text(subscript, text)) => {
                put(members, (subscript, text))
            }
            (Container::IntsByText(members), NewMember::IntByText(subscript, number)) => {
                put(members, (subscript, number))
            }
            (Container::TextsByText(members), NewMember::TextByText(subscript, text)) => {
                put(members, (subscript, text))
            }
            _ => codes::NO_CONTAINER,
        }
    }
}

/// Adds an item at the end of a list.
fn put<T: Drop>(list: &mut Vec<T>, item: T) -> u8
    ensures { IsPut item list.old.items list.new.items result }
{
    match list.push(item) {
        Ok(()) => codes::DONE,
        Err(_) => codes::NO_MEMORY,
    }
}
