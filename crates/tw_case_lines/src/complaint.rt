//! Why a line can't be executed.

use hex::FromHexError;
use std::alloc::{AllocError, AllocFailed};
use std::io;
use std::num::ParseIntError;
use tw_code::NoMemory;

/// The error of a line, or that an allocation failed. No case can expect it as its output.
#[derive(Clone, Copy)]
pub enum Complaint {
    Actor,
    Assembly,
    Astray,
    Names,
    Change,
    ChangePastEnd,
    CutPastEnd,
    Digits,
    Endless,
    Escape,
    ExtraField,
    File,
    HostDiffers,
    Input,
    LayoutLimits,
    LayoutNumbers,
    LongEvent,
    MachineDiffers,
    ManyEvents,
    ManyPieces,
    Naming,
    NoEvents,
    NoFrame,
    NoMemory,
    NoProgram,
    NoTurn,
    NotLeft,
    NotOpened,
    NotRefused,
    Number,
    Refused,
    SeatCount,
    StopDiffers,
    TakenName,
    UnknownEvent,
    UnknownKind,
    UnknownName,
    UnknownPart,
    WordBytes,
    WrittenBytes,
}

impl Complaint {
    /// Returns the line that is printed for a complaint about a case.
    pub fn text(self) -> &'static str {
        match self {
            Complaint::Actor => "an actor is e, s or w and a number",
            Complaint::Assembly => "this is no program in assembly text",
            Complaint::Astray => "a turn went astray",
            Complaint::Names => "this is no text with names",
            Complaint::Change => "a change is PLACE=DIGITS",
            Complaint::ChangePastEnd => "no byte is at the place of a change",
            Complaint::CutPastEnd => "there are fewer bytes than are to be left",
            Complaint::Digits => "these are no bytes in hexadecimal digits",
            Complaint::Endless => "a run without end",
            Complaint::Escape => "an escape is \\t, \\r, \\n or \\xHH",
            Complaint::ExtraField => "this case has a field too many",
            Complaint::File => "no file of this name can be read",
            Complaint::HostDiffers => "the host said or left something else than the pool",
            Complaint::Input => "a word spells no input",
            Complaint::LayoutLimits => "the layout is out of its limits",
            Complaint::LayoutNumbers => "a layout has three numbers",
            Complaint::LongEvent => "an event does at most 1,000,000,000 instructions",
            Complaint::MachineDiffers => "the reference machine doesn't make all events",
            Complaint::ManyEvents => "a case has at most 10,000 events",
            Complaint::ManyPieces => "there are more pieces of memory than can be held",
            Complaint::Naming => "a name is given as NAME = BYTES",
            Complaint::NoEvents => "this case has no events",
            Complaint::NoFrame => "engine 0 runs nothing",
            Complaint::NoMemory => "memory ran out",
            Complaint::NoProgram => "the bytes are no program",
            Complaint::NoTurn => "there is no such turn",
            Complaint::NotLeft => "no piece of memory can be left free",
            Complaint::NotOpened => "the run isn't opened, or memory ran out",
            Complaint::NotRefused => "no thread was refused, or a seat has other events",
            Complaint::Number => "this is no number, or a number out of its range",
            Complaint::Refused => "the program is refused",
            Complaint::SeatCount => "there are other seats than three",
            Complaint::StopDiffers => "a run that is stopped ends otherwise",
            Complaint::TakenName => "the name is taken",
            Complaint::UnknownEvent => "there is no such event",
            Complaint::UnknownKind => "there is no such kind of case",
            Complaint::UnknownName => "no earlier line names these bytes",
            Complaint::UnknownPart => "there is no such part",
            Complaint::WordBytes => "a word isn't UTF-8",
            Complaint::WrittenBytes => "the output is no text",
        }
    }
}

impl From<AllocError> for Complaint {
    /// Returns the complaint of a case for a failed allocation.
    fn from(_error: AllocError) -> Complaint {
        Complaint::NoMemory
    }
}

impl<T: Drop> From<AllocFailed<T>> for Complaint {
    /// Drops what wasn't stored, and returns the complaint of a case for a failed allocation.
    fn from(_error: AllocFailed<T>) -> Complaint {
        Complaint::NoMemory
    }
}

impl From<NoMemory> for Complaint {
    /// Returns the complaint of a case if encoding ran out of memory.
    fn from(_error: NoMemory) -> Complaint {
        Complaint::NoMemory
    }
}

impl From<io::Error> for Complaint {
    /// Returns the complaint of a case whose file can't be read.
    fn from(_error: io::Error) -> Complaint {
        Complaint::File
    }
}

impl From<ParseIntError> for Complaint {
    /// Returns the complaint of a case with a word that is no number.
    fn from(_error: ParseIntError) -> Complaint {
        Complaint::Number
    }
}

impl From<FromHexError> for Complaint {
    /// Returns the complaint of a case with a word that isn't hex digits.
    fn from(_error: FromHexError) -> Complaint {
        Complaint::Digits
    }
}
