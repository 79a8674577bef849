//! Programs, the table of their instructions, and the semantics of both.
#![tactic(auto)]

pub mod compute;
mod flow;
mod form;
mod inputs;
mod instr;
mod main_shape;
mod memory;
mod opcode;
mod operands;
mod procedure;
mod program;
pub mod searching;
mod sink;
mod theorems;
mod version;

pub use flow::{Flow, Way, flow_at};
pub use form::Form;
pub use inputs::{
    MAX_ENTRIES, MAX_MEMBERS, has_fitting_inputs, has_input_count, input_count, input_param, rises,
};
pub use instr::{Action, Arithmetic, DataInstr, Instr, LocalInstr, Priority, Sought};
pub use main_shape::{has_main_shape, main_params};
pub use memory::NoMemory;
pub use opcode::{OPCODES, Opcode, opcode_at, opcode_in, word_of};
pub use operands::{Operands, PlainOperand, make};
pub use procedure::Procedure;
pub use program::Program;
pub use sink::{Operand, Sink, put_instr};
pub use theorems::{numbers_grow, shown_and_read, some_enabled, takes_once};
pub use version::Version;
