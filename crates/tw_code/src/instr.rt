//! Instructions.

use tw_types::{DataType, Items, Scalar, Text};

/// The operation on two integers, in the order of the opcodes.
#[derive(Clone, Copy)]
pub enum Arithmetic {
    /// ADD.
    Add,
    /// SUB.
    Subtract,
    /// MUL.
    Multiply,
    /// DIV: the quotient, rounded towards zero.
    Divide,
    /// REM: the remainder of that division.
    Remainder,
    /// AND: the bits that both have, like the next four of two's complement.
    And,
    /// OR: the bits that one of them has.
    Or,
    /// XOR: the bits that exactly one has.
    Xor,
    /// SHL: the bits of the left one that many places up. What leaves 64 bits is lost.
    ShiftLeft,
    /// SHR: the bits of the left one that many places down, with zeros above.
    ShiftRight,
    /// WMUL: the product modulo 2^64.
    WrappingMultiply,
    /// WADD: the sum modulo 2^64.
    WrappingAdd,
}

/// The aim of a search in a text.
#[derive(Clone, Copy)]
pub enum Sought {
    /// FIND: the least place at which the pattern begins.
    Find,
    /// SPAN: the least place whose byte isn't one of the pattern's, or the text's end.
    Span,
    /// UNTIL: the least place whose byte is one of the pattern's, or the text's end.
    Until,
}

/// The source of a task's priority.
#[derive(Clone, Copy)]
pub enum Priority {
    Constant(i64),
    /// The integer in a value register.
    Computed(u8),
}

/// The task that RULE or PUT names.
#[derive(Drop)]
pub struct Action {
    /// The number of its procedure in the program.
    pub procedure: u8,
    pub priority: Priority,
    /// The number of the one actor that may take it, or `None` for any.
    pub target: Option<u8>,
    /// A register for each parameter; the mode of the parameter says in which bank.
    pub args: Items<u8>,
}

/// A local instruction, which changes only its task's place, values and loops. Registers are numbered from 0 to 15 in each of the
/// two banks. An instruction that skips continues `skip` instructions after the next place.
#[derive(Drop)]
pub enum LocalInstr {
    /// INT: sets the value register `to` to the number.
    Int {
        to: u8,
        value: i64,
    },
    /// TEXT: sets the value register `to` to the text.
    Text {
        to: u8,
        text: Text,
    },
    /// COPY: sets `to` to the value of `from`.
    Copy {
        to: u8,
        from: u8,
    },
    /// ADD and the others of `Arithmetic`: sets `to` to the result. If that doesn't fit 64 bits, or there is no division or shift by
    /// `right`, the instruction is refused, and skips.
    Compute {
        operation: Arithmetic,
        to: u8,
        left: u8,
        right: u8,
        skip: u16,
    },
    /// MULDIV: sets `to` to the product of `left` and `right` by `divisor`, rounded towards zero. Refused if `divisor` isn't positive,
    /// or the quotient doesn't fit 64 bits.
    MultiplyDivide {
        to: u8,
        left: u8,
        right: u8,
        divisor: u8,
        skip: u16,
    },
    /// CAT: sets `to` to the text of `left` followed by that of `right`. Refused if that would have over 4,096 bytes.
    Concatenate {
        to: u8,
        left: u8,
        right: u8,
        skip: u16,
    },
    /// LEN: sets `to` to the number of bytes of the text in `from`.
    Length {
        to: u8,
        from: u8,
    },
    /// SHOW: sets `to` to the integer in `from`, in decimal.
    Show {
        to: u8,
        from: u8,
    },
    /// READI: sets `to` to the integer that SHOW writes as the text in `from`. Refused if there is none.
    ReadInt {
        to: u8,
        from: u8,
        skip: u16,
    },
    /// BYTE: sets `to` to the byte at the place in `place` of the text in `from`. Refused if there is none.
    ByteAt {
        to: u8,
        from: u8,
        place: u8,
        skip: u16,
    },
    /// SLICE: sets `to` to the text in `from` from the place in `start` up to the one in `end`. Refused if they aren't two places
    /// of the text, in this order, at which it may be cut.
    Slice {
        to: u8,
        from: u8,
        start: u8,
        end: u8,
        skip: u16,
    },
    /// FIND, SPAN and UNTIL: sets `to` to the place that the search for `pattern` finds in `text`, from the place in `start` on.
    /// Refused if it finds none, or if the text has no such place.
    Seek {
        sought: Sought,
        to: u8,
        text: u8,
        pattern: u8,
        start: u8,
        skip: u16,
    },
    /// JMP: skips.
    Jump {
        skip: u16,
    },
    /// JEQ: skips if the values are equal.
    JumpEqual {
        left: u8,
        right: u8,
        skip: u16,
    },
    /// JLT: skips if the integer in `left` is less than that in `right`.
    JumpLess {
        left: u8,
        right: u8,
        skip: u16,
    },
    /// JTLT: skips if the text in `left` is before that in `right`, by their bytes.
    JumpTextLess {
        left: u8,
        right: u8,
        skip: u16,
    },
    /// REPEAT: begins a loop at the next place, with this many iterations.
    Repeat {
        iterations: u16,
    },
    /// END: ends one iteration of the innermost loop. Continues at the loop's first place if iterations are left, else at the next place.
    End,
    /// LAST: makes this iteration the innermost loop's last. Outside of loops it does nothing.
    Last,
}

impl LocalInstr {
    /// The greatest number of iterations of REPEAT; the least is 1.
    pub const MAX_ITERATIONS: u16 = 1_000;
}

/// An instruction on data, which also reads and changes the store, its notices and the task's right registers.
#[derive(Clone, Copy)]
pub enum DataInstr {
    /// NEW: creates a datum, and puts its write right into the right register `write`, its read right into `read`.
    New {
        write: u8,
        read: u8,
        ty: DataType,
    },
    /// STORE: sets the datum whose write right is in the right register `datum` to the value in the value register `from`, and spends
    /// the right.
    Store {
        datum: u8,
        from: u8,
    },
    /// GET: sets the value register `to` to the value of the datum whose read right is in `datum`.
    Get {
        to: u8,
        datum: u8,
    },
    /// INS: inserts the datum of `member` into the container whose write right is in `container`, at the subscript in the value
    /// register `subscript`. Refused if that subscript is taken. The subscripts are of the type `by`.
    Insert {
        by: Scalar,
        container: u8,
        subscript: u8,
        member: u8,
        skip: u16,
    },
    /// LOOK: puts a read right on the member at a subscript into `member`. Refused if there is no such member.
    Look {
        by: Scalar,
        member: u8,
        container: u8,
        subscript: u8,
        skip: u16,
    },
    /// SIZE: sets `to` to the number of members, or of values.
    Size {
        to: u8,
        container: u8,
    },
    /// SUBAT: sets `to` to the subscript with exactly as many smaller ones as `index` says. Refused if there is none.
    SubscriptAt {
        by: Scalar,
        to: u8,
        container: u8,
        index: u8,
        skip: u16,
    },
    /// MINS: puts the value in `from` into the map whose write right is in `map`, at the subscript in `subscript`. Refused if that is
    /// taken.
    InsertValue {
        map: u8,
        subscript: u8,
        from: u8,
        skip: u16,
    },
    /// MADD: adds the integer in `from` to the one at the subscript in `subscript` of the map of sums whose write right is in `map`,
    /// modulo 2^64. Where nothing is, it puts the integer there.
    AddValue {
        map: u8,
        subscript: u8,
        from: u8,
    },
    /// MGET: sets `to` to the value of a closed map at the subscript in `subscript`. Refused if there is none.
    GetValue {
        to: u8,
        map: u8,
        subscript: u8,
        skip: u16,
    },
    /// DUPR: puts a second read right on the datum of `from` into `to`.
    CopyRead {
        to: u8,
        from: u8,
    },
    /// DUPW: puts a second write right on the container of `from` into `to`.
    CopyWrite {
        to: u8,
        from: u8,
    },
    /// DROPR: drops the read right in `right`.
    DropRead {
        right: u8,
    },
    /// DROPW: drops the write right in `right`.
    DropWrite {
        right: u8,
    },
}

/// An instruction, by its layer: the part of the state that it reads and changes.
#[derive(Drop)]
pub enum Instr {
    Local(LocalInstr),
    Data(DataInstr),
    /// RULE: makes a rule of this engine. Its task waits until the data of the `closed` parameters are closed.
    Rule(Action),
    /// PUT: makes a task.
    Put(Action),
    /// RET: ends the task.
    Ret,
}
