//! The skips of instructions.

ghost use Rattle.std.specs.Prelude.{◌≡◌};
ghost use Rattle.tw_asm.specs.Parts.{skip_of};
ghost use Rattle.tw_asm.specs.words.Skips.{skip_in};
ghost use Rattle.tw_asm.specs.Seen.{data_with_skip, local_with_skip, with_skip};

use tw_code::{DataInstr, Flow, Instr, LocalInstr};

/// Replaces the skip of a local instruction, if it has one.
#[rattlefmt::skip]
fn local_with_skip(instr: LocalInstr, skip: u16) -> LocalInstr
    ensures { result ≡ local_with_skip skip instr }
{
    match instr {
        LocalInstr::Compute { operation, to, left, right, .. } => LocalInstr::Compute { operation, to, left, right, skip },
        LocalInstr::Concatenate { to, left, right, .. } => LocalInstr::Concatenate { to, left, right, skip },
        LocalInstr::ReadInt { to, from, .. } => LocalInstr::ReadInt { to, from, skip },
        LocalInstr::Jump { .. } => LocalInstr::Jump { skip },
        LocalInstr::JumpEqual { left, right, .. } => LocalInstr::JumpEqual { left, right, skip },
        LocalInstr::JumpLess { left, right, .. } => LocalInstr::JumpLess { left, right, skip },
        LocalInstr::ByteAt { to, from, place, .. } => LocalInstr::ByteAt { to, from, place, skip },
        LocalInstr::Slice { to, from, start, end, .. } => LocalInstr::Slice { to, from, start, end, skip },
        LocalInstr::Seek { sought, to, text, pattern, start, .. } => LocalInstr::Seek { sought, to, text, pattern, start, skip },
        LocalInstr::MultiplyDivide { to, left, right, divisor, .. } => LocalInstr::MultiplyDivide { to, left, right, divisor, skip },
        LocalInstr::JumpTextLess { left, right, .. } => LocalInstr::JumpTextLess { left, right, skip },
        without => without,
    }
}

/// Replaces the skip of an instruction on data, if it has one.
#[rattlefmt::skip]
fn data_with_skip(instr: DataInstr, skip: u16) -> DataInstr
    ensures { result ≡ data_with_skip skip instr }
{
    match instr {
        DataInstr::Insert { by, container, subscript, member, .. } => DataInstr::Insert { by, container, subscript, member, skip },
        DataInstr::Look { by, member, container, subscript, .. } => DataInstr::Look { by, member, container, subscript, skip },
        DataInstr::SubscriptAt { by, to, container, index, .. } => DataInstr::SubscriptAt { by, to, container, index, skip },
        DataInstr::InsertValue { map, subscript, from, .. } => DataInstr::InsertValue { map, subscript, from, skip },
        DataInstr::GetValue { to, map, subscript, .. } => DataInstr::GetValue { to, map, subscript, skip },
        without => without,
    }
}

/// Replaces the skip of an instruction, if it has one.
pub fn with_skip(instr: Instr, skip: u16) -> Instr
    ensures { result ≡ with_skip skip instr }
{
    match instr {
        Instr::Local(instr) => Instr::Local(local_with_skip(instr, skip)),
        Instr::Data(instr) => Instr::Data(data_with_skip(instr, skip)),
        without => without,
    }
}

/// Returns how many instructions may be skipped, if the flow has a skip.
fn skip_in(flow: Flow) -> Option<u16>
    ensures { result ≡ skip_in flow }
{
    match flow {
        Flow::Branch(skip) | Flow::Jump(skip) => Some(skip),
        Flow::Straight | Flow::Begin(_) | Flow::Close | Flow::Stop => None,
    }
}

/// Returns how many instructions it may skip, if it has a skip.
pub fn skip_of(instr: &Instr) -> Option<u16>
    ensures { result ≡ skip_of instr.now }
{
    skip_in(instr.flow())
}
