//! Messages of the command on standard error.

use crate::symbolic::Misnamed;
use std::alloc::{AllocError, Global};
use std::io;
use std::io::ErrorKind;
use std::rt::Stderr;
use tw_files::Misfit;
use tw_session::{Close, ErrorCode, Failure, Position, Status};
use tw_visible::{Kind, visible};

/// An answer to a command, as far as hints are about it.
#[derive(Drop)]
pub struct Answered<'a> {
    /// Hints name the command so.
    pub name: &'a str,
    pub status: Status,
    /// The arguments of the session.
    pub words: &'a [String],
    /// Whether lines of inputs were to be answered.
    pub is_each: bool,
    /// The file whose name promises another text.
    pub misnamed: Option<Misnamed<'a>>,
    /// Whether standard input was read as it is.
    pub reads_input: bool,
}

/// Returns why a file can't be read, if the kind of its error says it.
fn reason_of(kind: ErrorKind) -> Option<&'static str> {
    match kind {
        ErrorKind::NotFound => Some("there is no such file"),
        ErrorKind::IsADirectory => Some("it is a folder"),
        ErrorKind::PermissionDenied => Some("permission denied"),
        _ => None,
    }
}

/// Returns the name of a file without hidden characters.
fn shown(alloc: Global, path: &str) -> Result<String, AllocError> {
    visible(alloc, Kind::Lines, path.as_bytes())
}

/// Prints why a file can't be read.
pub fn complain_unread(
    alloc: Global,
    stderr: &Stderr,
    path: &str,
    error: &io::Error,
) -> io::Result<()> {
    let path = shown(alloc, path)?;
    match reason_of(error.kind()) {
        Some(reason) => eprintln!(stderr; "tw: {path} can't be read: {reason}"),
        None => eprintln!(stderr; "tw: {path} can't be read: {error}"),
    }
}

/// Prints why a file doesn't fit the program's.
pub fn complain_misfit(alloc: Global, stderr: &Stderr, path: &str, why: Misfit) -> io::Result<()> {
    let path = shown(alloc, path)?;
    match why {
        Misfit::InputsTwice => eprintln!(stderr;
            "tw: {path} isn't read: the program's file has a line `inputs`, too; remove it, or don't name {path}"
        ),
        Misfit::EventsTwice => eprintln!(stderr;
            "tw: {path} isn't read: the program's file has a line `events`, too; remove it, or don't name {path}"
        ),
        Misfit::NoEvents => eprintln!(stderr;
            "tw: {path} holds no trace: it has no line `events`, as `tw run --trace` writes"
        ),
    }
}

/// Prints that there is no file of this name.
pub fn complain_missing(alloc: Global, stderr: &Stderr, word: &str) -> io::Result<()> {
    let word = shown(alloc, word)?;
    eprintln!(stderr; "tw: there is no file {word}")
}

/// Prints that `--each` has no lines to answer.
fn complain_lineless(stderr: &Stderr, name: &str) -> io::Result<()> {
    eprintln!(stderr;
        "tw: --each needs lines of inputs: {name} run FILE --each LINES; those in FILE itself follow a line `inputs`"
    )
}

/// Prints that a terminal is read for a file's content.
pub fn print_reading(stderr: &Stderr) -> io::Result<()> {
    eprintln!(stderr; "tw: reading standard input, which Ctrl-D ends")
}

/// Prints that a terminal is read.
pub fn print_notice(stderr: &Stderr) -> io::Result<()> {
    eprintln!(stderr;
        "tw: reading standard input, which Ctrl-D ends; a FILE after the command is read instead"
    )
}

/// Returns whether a session failed because what it read is no hex text of a program.
fn holds_no_program(failure: &Failure) -> bool {
    match (failure.code, failure.position) {
        (Some(ErrorCode { letter, number }), position) => {
            let code = (letter, number);
            code == (b'H', 1) || (code == (b'F', 3) && position == Position::Byte(0))
        }
        (None, _) => false,
    }
}

/// Prints the command that explains a code. Those of traps have as many digits as they need.
fn print_explain_hint(stderr: &Stderr, name: &str, code: ErrorCode) -> io::Result<()> {
    let number = code.number;
    if code.letter == b'C' {
        return eprintln!(stderr; "tw: {name} explain C{number} says more");
    }
    let letter = char::from(code.letter);
    let (tens, ones) = (number / 10, number % 10);
    eprintln!(stderr; "tw: {name} explain {letter}{tens}{ones} says more")
}

/// Returns the name of an odd file.
fn path_of(misnamed: Misnamed<'_>) -> &str {
    match misnamed {
        Misnamed::Symbolic(path)
        | Misnamed::Python(path)
        | Misnamed::Marked(path)
        | Misnamed::Long(path) => path,
    }
}

/// Prints how a text is read whose file's name promises another one, what reads it, or why nothing does.
fn print_misnamed(alloc: Global, stderr: &Stderr, misnamed: Misnamed<'_>) -> io::Result<()> {
    let path = shown(alloc, path_of(misnamed))?;
    match misnamed {
        Misnamed::Symbolic(_) => eprintln!(stderr;
            "tw: {path} doesn't begin with a line `names`, so it is read as assembly text without names"
        ),
        Misnamed::Python(_) => eprintln!(stderr;
            "tw: {path} is a Python file: python3 -m yuglemit run {path} compiles and runs it"
        ),
        Misnamed::Marked(_) => eprintln!(stderr;
            "tw: {path} begins with a byte order mark, which belongs to its first word; save it as UTF-8 without one"
        ),
        Misnamed::Long(_) => eprintln!(stderr; "tw: {path} has more than 16777216 bytes"),
    }
}

/// Prints hints about an error with a code: about its file, standard input, and `explain`.
fn print_error_hint(
    alloc: Global,
    stderr: &Stderr,
    answered: &Answered<'_>,
    failure: &Failure,
) -> io::Result<()> {
    let Some(code) = failure.code else {
        return Ok(());
    };
    if let Some(misnamed) = answered.misnamed {
        print_misnamed(alloc, stderr, misnamed)?;
    }
    if answered.reads_input && holds_no_program(failure) {
        eprintln!(stderr;
            "tw: standard input holds no program as hex text; --text reads assembly text, and a command before a | may have failed"
        )?;
    }
    print_explain_hint(stderr, answered.name, code)
}

/// Returns whether the arguments request a timeline, for a hint about its limit.
fn draws(words: &[String]) -> bool {
    words.iter().any(|word| word.as_str() == "picture" || word.as_str() == "--picture")
}

/// Prints which help or list shows what a rejected command line may be.
fn print_command_hint(stderr: &Stderr, name: &str, words: &[String]) -> io::Result<()> {
    match words {
        [command, ..] if command.as_str() == "explain" => {
            eprintln!(stderr; "tw: {name} explain lists the codes")
        }
        [command, ..] if tw_cli::reads_program(command.as_str()) => {
            eprintln!(stderr; "tw: {name} {command} --help lists its arguments")
        }
        _ => eprintln!(stderr; "tw: {name} --help lists the commands"),
    }
}

/// Prints where to read more of an error, or what to do about a limit.
pub fn print_hints(alloc: Global, stderr: &Stderr, answered: &Answered<'_>) -> io::Result<()> {
    match answered.status {
        Status::Ended(Close::Refused(failure) | Close::Trapped(failure)) => {
            print_error_hint(alloc, stderr, answered, &failure)
        }
        Status::Ended(Close::CommandLine) if answered.is_each => {
            complain_lineless(stderr, answered.name)?;
            print_command_hint(stderr, answered.name, answered.words)
        }
        Status::Ended(Close::CommandLine | Close::Unreadable(_)) => {
            print_command_hint(stderr, answered.name, answered.words)
        }
        Status::Ended(Close::Limit) if draws(answered.words) => {
            eprintln!(stderr;
                "tw: the run reached its limit of events, or that of --seconds; --limit takes up to 1000000"
            )
        }
        Status::ReadFailed => eprintln!(stderr; "tw: standard input can't be read"),
        Status::WriteFailed => eprintln!(stderr; "tw: standard output can't be written"),
        _ => Ok(()),
    }
}
