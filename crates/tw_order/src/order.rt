//! Orders: what is done with the program that is read.

ghost use Rattle.std.specs.Prelude.{◌≡◌};
ghost use Rattle.tw_order.specs.Orders.{order_in_turn, order_of_text};

use crate::check::CheckOrder;
use crate::form::{AssembleOrder, DisassembleOrder};
use crate::runs::{Answer, EachOrder, RunInputs, RunOptions};
use tw_types::{Input, Items, Layout};

/// The format of the program that is read.
#[derive(Clone, Copy, PartialEq, Eq)]
pub enum Source {
    /// As hex text of its bytes.
    Hex,
    /// As assembly text.
    Assembly,
}

/// The order that the arguments give. All but the first read a program in this format.
#[derive(Drop)]
pub enum Order {
    /// Reads assembly text, and writes this.
    Assemble(AssembleOrder),
    /// Writes the program's assembly text, with the number of each place if they are shown.
    Disassemble(Source, DisassembleOrder),
    /// Verifies the program, and prints its budgets and the rest of the order if it is accepted.
    Check(Source, CheckOrder),
    /// Runs the program with these inputs.
    Run(Source, RunOptions, RunInputs),
    /// Runs the program on each line of inputs after it.
    Each(Source, EachOrder),
    /// Replays the trace after the program in this layout. Without inputs, words in the lines after the program encode them.
    Replay(Source, Answer, Layout, Option<Items<Input>>),
}

impl Order {
    /// Returns the same order, with its run single-threaded, and without an observer.
    pub fn in_turn(self) -> Order
        ensures { result ≡ order_in_turn self }
    {
        match self {
            Order::Run(source, mut options, inputs) => {
                options.in_turn = true;
                options.is_watched = false;
                Order::Run(source, options, inputs)
            }
            Order::Assemble(order) => Order::Assemble(order),
            Order::Disassemble(source, order) => Order::Disassemble(source, order),
            Order::Check(source, order) => Order::Check(source, order),
            Order::Each(source, order) => Order::Each(source, order),
            Order::Replay(source, answer, layout, inputs) => {
                Order::Replay(source, answer, layout, inputs)
            }
        }
    }

    /// Returns the same order for a program in assembly text, which `asm` takes for symbolic if it says so.
    pub fn of_text(self) -> Order
        ensures { result ≡ order_of_text self }
    {
        let source = Source::Assembly;
        match self {
            Order::Assemble(order) => Order::Assemble(order.with_names()),
            Order::Disassemble(_, order) => Order::Disassemble(source, order),
            Order::Check(_, order) => Order::Check(source, order),
            Order::Run(_, options, inputs) => Order::Run(source, options, inputs),
            Order::Each(_, order) => Order::Each(source, order),
            Order::Replay(_, answer, layout, inputs) => {
                Order::Replay(source, answer, layout, inputs)
            }
        }
    }
}
