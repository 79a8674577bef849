//! The form of a command's output, and the orders that have little more.

ghost use Rattle.std.specs.Prelude.{◌≡◌};
ghost use Rattle.tw_order.specs.Orders.{with_names};

/// The form of a command's output.
#[derive(Clone, Copy, PartialEq, Eq)]
pub enum Form {
    Text,
    /// One JSON object on one line.
    Json,
}

/// The input and the output of `asm`.
#[derive(Clone, Copy, PartialEq, Eq)]
pub enum Assembling {
    /// The bytes of a program in assembly text.
    Text,
    /// The bytes of a program in assembly text, which may be symbolic.
    Names,
    /// The expanded text of symbolic assembly.
    Plain,
}

/// The order to assemble.
#[derive(Clone, Copy)]
pub struct AssembleOrder {
    /// The texts that are read and written.
    pub what: Assembling,
    pub form: Form,
}

impl AssembleOrder {
    /// Returns the order for a text that may be symbolic.
    pub fn with_names(self) -> AssembleOrder
        ensures { result ≡ with_names self }
    {
        let what = match self.what {
            Assembling::Text => Assembling::Names,
            other => other,
        };
        AssembleOrder { what, ..self }
    }
}

/// Whether a program's instructions are listed by their places.
#[derive(Clone, Copy, PartialEq, Eq)]
pub enum Places {
    Hidden,
    Shown,
}

/// The order to disassemble.
#[derive(Clone, Copy)]
pub struct DisassembleOrder {
    /// Whether each instruction has its place.
    pub places: Places,
    pub form: Form,
}
