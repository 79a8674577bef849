//! Handles, which C keeps.

ghost use Rattle.std.specs.Prelude.{◌≡◌, Option, Some, None, IfOk};
ghost use Rattle.std.specs.Option.{option_map};
ghost use Rattle.std.specs.Coded.{coded_option};
ghost use Rattle.tw_handles.specs.declared.held.Held.{Held as HeldV};
ghost use Rattle.tw_handles.specs.contracts.held.Held.{the_row as held_row};
ghost use Rattle.tw_handles.specs.Slot.{slot_owns};

use crate::held::Held;
use crate::loose::Loose;
use std::alloc::{AllocError, Global};
use std::marker::Model;
use std::mem::replace;
use std::ptr::null_mut;

/// A pointer that C keeps and passes on: null, or the box of a program, inputs or a report.
#[repr(C)]
pub struct Handle {
    at: *mut u8,
    alloc: Global,
    pub ghost held: { Option HeldV } by { coded_option held_row.coded },
}

impl Model for Handle {
    ghost also_owns = { λ h. slot_owns held_row h.alloc h.at h.held };
}

impl Handle {
    /// Returns the null handle.
    pub fn empty(alloc: Global) -> Handle
        ensures { result.held ≡ None }
    {
        Handle {
            at: null_mut(),
            alloc,
        }
    }

    /// Makes a handle of the pointer of a box.
    fn of_loose(loose: Loose<Held, Global>) -> Handle
        ensures { result.held ≡ Some loose.value }
    {
        let Loose { at, alloc } = loose;
        Handle {
            at: at as *mut u8,
            alloc,
        }
    }

    /// Returns the pointer of the box, unless it is null.
    fn into_loose(self) -> Option<Loose<Held, Global>>
        ensures { option_map (λ l. l.value) result ≡ self.held }
    {
        let Handle { at, alloc } = self;
        if at.is_null() {
            None
        } else {
            Some(Loose {
                at: at as *mut Held,
                alloc,
            })
        }
    }

    /// Makes a handle of a box.
    pub(crate) fn of(whole: Box<Held>) -> Handle
        ensures { result.held ≡ Some whole.value }
    {
        Handle::of_loose(Loose::of(whole))
    }

    /// Puts contents into a box of a new handle.
    pub(crate) fn of_held(alloc: Global, held: Held) -> Result<Handle, AllocError>
        ensures { IfOk result (λ h. h.held ≡ Some held) }
    {
        match Box::new(alloc, held) {
            Ok(whole) => Ok(Handle::of(whole)),
            Err(_) => Err(AllocError),
        }
    }

    /// Returns the box, if there is one.
    fn into_box(self) -> Option<Box<Held>>
        ensures { option_map (λ b. b.value) result ≡ self.held }
    {
        match self.into_loose() {
            Some(loose) => Some(loose.into_box()),
            None => None,
        }
    }

    /// Takes the box out, which leaves a null handle.
    pub fn take(&mut self, alloc: Global) -> Option<Box<Held>>
        ensures empty { self.new.held ≡ None }
        ensures taken { option_map (λ b. b.value) result ≡ self.old.held }
    {
        replace(self, Handle::empty(alloc)).into_box()
    }

    /// Puts the box back that `take` took out.
    pub fn put(&mut self, whole: Option<Box<Held>>)
        requires { self.old.held ≡ None }
        ensures { self.new.held ≡ option_map (λ b. b.value) whole }
    {
        if let Some(whole) = whole {
            *self = Handle::of(whole);
        }
    }
}

unsafe impl Send for Handle {}

impl Drop for Handle {
    /// Frees the contents, if there are any.
    fn drop(self) {
        if let Some(whole) = self.into_box() {
            whole.drop();
        }
    }
}
