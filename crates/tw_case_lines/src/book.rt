//! The names of earlier lines.

use crate::complaint::Complaint;
use std::alloc::{AllocError, Global};

/// How much deeper the stack may be in a case than where the first one is noted, in bytes.
const DEEPER: usize = 2_097_152;

/// Lets the stack grow, which it can't while all addresses are held, nor later where memory lies below it. Returns true. It has a frame of its own,
/// since only a frame that has ended leaves its part of the stack to later ones.
#[inline(never)]
fn grow_stack(place: usize) -> bool {
    let mut below = [0_u8; DEEPER];
    below[place % DEEPER] = 1;
    below[place.wrapping_add(1) % DEEPER] == 0
}

/// The bytes that earlier lines named, the names of the cases so far, and how many cases passed.
#[derive(Drop)]
pub struct Book {
    bytes: Vec<(String, Vec<u8>)>,
    cases: Vec<String>,
    as_wanted: u64,
}

impl Book {
    /// Makes a book of cases and named bytes, without any.
    pub fn new(alloc: Global) -> Book {
        Book {
            bytes: Vec::new(alloc),
            cases: Vec::new(alloc),
            as_wanted: 0,
        }
    }

    /// Returns how many cases of the book had the expected output.
    pub fn as_wanted(&self) -> u64 {
        self.as_wanted
    }

    /// Counts a case in the book whose output was as expected.
    pub fn count(&mut self) {
        self.as_wanted = self.as_wanted.saturating_add(1);
    }

    /// Returns the bytes of the book with this name, or an error if there are none.
    pub fn named(&self, name: &str) -> Result<&[u8], Complaint> {
        for (known, bytes) in &self.bytes {
            if known.as_str() == name {
                return Ok(bytes.as_slice());
            }
        }
        Err(Complaint::UnknownName)
    }

    /// Names bytes in the book of cases. Returns an error if the name is taken.
    pub fn name(&mut self, name: String, bytes: Vec<u8>) -> Result<(), Complaint> {
        if self.named(name.as_str()).is_ok() {
            return Err(Complaint::TakenName);
        }
        self.bytes.push((name, bytes))?;
        Ok(())
    }

    /// Adds the name of a case. Returns whether it isn't empty, and no earlier case has it. The first one lets the stack grow, before any case
    /// holds addresses.
    pub fn note(&mut self, alloc: Global, name: &str) -> Result<bool, AllocError> {
        if name.is_empty() || self.has_case(name) {
            return Ok(false);
        }
        let is_first = self.cases.is_empty();
        self.cases.push(name.to_string(alloc)?)?;
        Ok(!is_first || grow_stack(name.len()))
    }

    /// Returns whether the book has an earlier case of this name.
    fn has_case(&self, name: &str) -> bool {
        for known in &self.cases {
            if known.as_str() == name {
                return true;
            }
        }
        false
    }
}
