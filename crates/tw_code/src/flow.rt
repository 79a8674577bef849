//! Control flow: where a task continues after an instruction.

ghost use Rattle.std.specs.Prelude.{◌≡◌, ◌<◌, Some, is_some, length, slice_get};
ghost use Rattle.tw_code.specs.accepting.Flow.{data_flow, flow_of, flows, local_flow};
ghost use Rattle.tw_code.specs.machine.Machine.{local_of};

use crate::instr::{DataInstr, Instr, LocalInstr};

/// The places at which a task may continue after an instruction.
#[derive(Clone, Copy, PartialEq, Eq)]
pub enum Flow {
    /// At the next place.
    Straight,
    /// At the next place, or this many instructions after it.
    Branch(u16),
    /// This many instructions after the next place.
    Jump(u16),
    /// At the next place, in a loop with this many iterations.
    Begin(u16),
    /// At the first place of the innermost loop, or at the next place.
    Close,
    /// Nowhere: the task ends.
    Stop,
}

/// The outcome of an instruction, which decides where the task continues.
#[derive(Clone, Copy)]
pub enum Way {
    /// It did what it says.
    Completed,
    /// It was refused, or its test held: it skips.
    Skipped,
}

impl LocalInstr {
    /// Returns where a task may continue after a local instruction.
    fn flow(&self) -> Flow
        ensures { result ≡ local_flow self.now }
    {
        match self {
            LocalInstr::Compute { skip, .. }
            | LocalInstr::MultiplyDivide { skip, .. }
            | LocalInstr::Concatenate { skip, .. }
            | LocalInstr::ReadInt { skip, .. }
            | LocalInstr::ByteAt { skip, .. }
            | LocalInstr::Slice { skip, .. }
            | LocalInstr::Seek { skip, .. }
            | LocalInstr::JumpEqual { skip, .. }
            | LocalInstr::JumpLess { skip, .. }
            | LocalInstr::JumpTextLess { skip, .. } => Flow::Branch(*skip),
            LocalInstr::Jump { skip } => Flow::Jump(*skip),
            LocalInstr::Repeat { iterations } => Flow::Begin(*iterations),
            LocalInstr::End => Flow::Close,
            _ => Flow::Straight,
        }
    }
}

impl DataInstr {
    /// Returns where a task may continue after an instruction on data.
    fn flow(self) -> Flow
        ensures { result ≡ data_flow self }
    {
        match self {
            DataInstr::Insert { skip, .. }
            | DataInstr::Look { skip, .. }
            | DataInstr::SubscriptAt { skip, .. }
            | DataInstr::InsertValue { skip, .. }
            | DataInstr::GetValue { skip, .. } => Flow::Branch(skip),
            _ => Flow::Straight,
        }
    }
}

impl Instr {
    /// Returns where a task may continue after it.
    pub fn flow(&self) -> Flow
        ensures { result ≡ flow_of self.now }
    {
        match self {
            Instr::Local(instr) => instr.flow(),
            Instr::Data(instr) => instr.flow(),
            Instr::Rule(_) | Instr::Put(_) => Flow::Straight,
            Instr::Ret => Flow::Stop,
        }
    }

    /// Returns whether it changes only its task's place, values and loops.
    pub fn is_local(&self) -> bool
        ensures { result ≡ is_some (local_of self.now) }
    {
        matches!(self, Instr::Local(_))
    }
}

/// Returns where a task may continue after the instruction at a place of the code.
pub fn flow_at(code: &[Instr], place: usize) -> Flow
    requires { place < length code.now }
    ensures { slice_get (flows code.now) place ≡ Some result }
{
    code[place].flow()
}
