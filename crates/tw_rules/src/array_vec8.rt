//! Short lists without memory of their own.

ghost use Rattle.std.specs.Prelude.{◌≡◌, ◌<◌, ◌≤◌, [], ◌∷◌, ◌++◌, length, slice_set};

use std::marker::Model;

/// At most eight items.
#[derive(Drop)]
pub struct ArrayVec8<T> {
    places: [T; 8],
    len: usize,
}

impl<T> Model for ArrayVec8<T> {
    ghost use Rattle.std.specs.Prelude.{List, ◌≤◌, ◌≡◌, length, take};

    ghost Value = { List T };

    ghost view = { λ few. take few.len few.places };

    ghost invariant = { λ few. (length few.places ≡ 8) × (few.len ≤ 8) };
}

impl<T: Copy> ArrayVec8<T> {
    /// Makes an empty list for at most eight items in an array. `blank` fills the free slots.
    pub fn new(blank: T) -> ArrayVec8<T>
        ensures { result ≡ [] }
    {
        ArrayVec8 {
            places: [blank; 8],
            len: 0,
        }
    }

    /// Returns the items of a list of at most eight, in order.
    pub fn as_slice(&self) -> &[T]
        ensures items { result.now ≡ self.now }
        ensures few { length result.now ≤ 8 }
    {
        &self.places[..self.len]
    }

    /// Appends an item to a list of at most eight.
    pub fn push(&mut self, item: T)
        requires { length self.old < 8 }
        ensures { self.new ≡ self.old ++ item ∷ [] }
    {
        self.places[self.len] = item;
        self.len += 1;
    }

    /// Replaces the item at an index of a list of at most eight. Does nothing past the last one.
    pub fn set(&mut self, place: usize, item: T)
        ensures { self.new ≡ slice_set self.old place item }
    {
        if place < self.len {
            self.places[place] = item;
        }
    }
}
