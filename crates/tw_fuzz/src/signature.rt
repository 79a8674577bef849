//! Random heads of procedures.

use crate::code::Code;
use crate::draw::draw;
use crate::local::REGISTERS;
use crate::rights::{Mode, Right, Ty};

/// A procedure's kind and parameters: first no value, an int, or an int and a text; then up to three rights.
#[derive(Clone, Copy)]
pub struct Signature {
    pub is_leaf: bool,
    pub values: u8,
    rights: [Right; 3],
    count: u8,
}

impl Signature {
    /// Returns the rights of a random procedure's parameters, in order.
    pub fn rights(&self) -> &[Right] {
        &self.rights[..usize::from(self.count) % 4]
    }

    /// Returns the random signature of main, whose first parameter is an output.
    pub fn next_main(seed: &mut u64) -> Signature {
        let mut rights = [Right::new(Mode::Write, Ty::next_of_main(seed)); 3];
        for k in 1..3_usize {
            rights[k] = Right::new(Mode::next(seed), Ty::next_of_main(seed));
        }
        Signature {
            is_leaf: false,
            values: 0,
            rights,
            count: draw(seed, 3).wrapping_add(1),
        }
    }

    /// Returns the random signature of another procedure. One in four waits for a datum of the type that it writes.
    pub fn next(seed: &mut u64) -> Signature {
        let mut rights = [Right::new(Mode::Write, Ty::Int); 3];
        for k in 0..3_usize {
            rights[k] = Right::new(Mode::next(seed), Ty::next(seed));
        }
        if draw(seed, 4) == 0 {
            rights[0].mode = Mode::Closed;
            rights[1] = Right::new(Mode::Write, rights[0].ty);
        }
        Signature {
            is_leaf: draw(seed, 5) > 1,
            values: draw(seed, 3),
            rights,
            count: draw(seed, 4),
        }
    }

    /// Appends the lines with which a random procedure begins. The registers hold the arguments then.
    pub fn put_head(&self, code: &mut Code) {
        code.clear();
        code.put(if self.is_leaf {
            "proc leaf"
        } else {
            "proc control"
        });
        code.put(match self.values {
            0 => "",
            1 => " val int",
            _ => " val int val text",
        });
        let mut register: u8 = 0;
        for right in self.rights() {
            code.put(" ");
            code.put(right.mode.word());
            code.put(right.ty.words());
            code.set(register, Some(*right));
            register = register.wrapping_add(1);
        }
        code.put("\n");
        code.put(REGISTERS);
    }
}
