//! Opens the files of a command.

ghost use Rattle.std.specs.Prelude.{◌≡◌, ℕ, List, ⊤, true, IfOk, IfErr, IfSome, OnErr};
ghost use Rattle.std.specs.Option.{option_map};
ghost use Rattle.tw_files.specs.Input.{AreHeld, AreMisfits, IsRead, IsSessionInput, IsTraceHeld, IsTraceless, opens_files as opens_files_is, separate_events as separate_events_is, separate_lines as separate_lines_is};
ghost use Rattle.tw_files.specs.Opening.{IsReason};
ghost use Rattle.tw_files.specs.Seen.{seen, seen_contents};
ghost use Rattle.tw_files.specs.declared.opening.NoInput.TheVariants.{NoMemory};

use crate::format::is_named_text;
use crate::naming::Naming;
use crate::sections::{events_in, has_no_trace};
use std::alloc::{AllocError, Global};
use std::io;
use std::io::ErrorKind;

/// Files that can be read by their names.
pub trait InputFiles {
    // The content of a file: all its bytes, or as many as a session reads.
    ghost Holds: { Self → List ℕ → List ℕ → Type 0 } = { λ _ _ _. ⊤ };

    // That a file can't be read.
    ghost Fails: { Self → List ℕ → Type 0 } = { λ _ _. ⊤ };

    /// Reads a whole file for a session; `-` is standard input.
    fn read_file(&self, alloc: Global, path: &str) -> io::Result<Vec<u8>>
        ensures bytes { IfOk result (λ bytes. Holds self.now path.now bytes.items) }
        ensures failed { OnErr result (Fails self.now path.now) };
}

/// The contents of the files of a command.
#[derive(Drop)]
pub struct Contents {
    pub program: Vec<u8>,
    /// The inputs, if they are in a file of their own.
    pub inputs: Option<Vec<u8>>,
    /// The events of a trace, if it is in a file of its own.
    pub trace: Option<Vec<u8>>,
    /// Whether the trace follows the inputs in their file (`followed`).
    pub trace_follows: bool,
}

/// The input of a session.
#[derive(Drop)]
pub struct SessionInput<'a> {
    /// Whether the program is assembly text, by its file.
    pub is_text: bool,
    /// Whether a run is drawn in place of a trace, by `picture`.
    pub draws_run: bool,
    /// The contents of its files; without any, it reads standard input.
    pub contents: Option<Contents>,
    /// The file of the lines of `--each`, which isn't read.
    pub lines: Option<&'a str>,
}

/// The reason why files don't fit each other.
#[derive(Clone, Copy, PartialEq, Eq)]
pub enum Misfit {
    /// A file has inputs, but the program's file has some, too.
    InputsTwice,
    /// A file has a trace, but the program's file has one, too.
    EventsTwice,
    /// A file has no line `events`.
    NoEvents,
}

/// The reason why a session gets nothing.
#[derive(Drop)]
pub enum NoInput<'a> {
    /// The file of this name can't be read.
    Unread(&'a str, io::Error),
    /// The file of this name doesn't fit the others.
    Misfit(&'a str, Misfit),
    /// An allocation failed.
    NoMemory,
}

impl<'a> From<AllocError> for NoInput<'a> {
    ghost from_gives = { λ _ e. e ≡ NoMemory };

    /// Returns that a session gets no input, since an allocation failed.
    fn from(_error: AllocError) -> NoInput<'a> {
        NoInput::NoMemory
    }
}

/// Reads a file that arguments name; an error has its path, unless an allocation failed.
fn read<'a, F: InputFiles>(files: &F, alloc: Global, path: &'a str) -> Result<Vec<u8>, NoInput<'a>>
    ensures bytes { IfOk result (λ bytes. F.Holds files.now path.entry.now bytes.items) }
    ensures failed { IfErr result (IsReason (F.Fails files.now) (λ why. ⊥)) }
{
    match files.read_file(alloc, path) {
        Ok(bytes) => Ok(bytes),
        Err(error) if error.kind() == ErrorKind::OutOfMemory => Err(NoInput::NoMemory),
        Err(error) => Err(NoInput::Unread(path, error)),
    }
}

/// Reads the file of inputs that arguments name, if they are in one of their own.
fn inputs_of<'a, F: InputFiles>(
    files: &F,
    alloc: Global,
    path: Option<&'a str>,
) -> Result<Option<Vec<u8>>, NoInput<'a>>
    ensures bytes { IfOk result (λ inputs. AreHeld (F.Holds files.now) (option_map (λ path. path.now) path.entry) (option_map (λ bytes. bytes.items) inputs)) }
    ensures failed { IfErr result (IsReason (F.Fails files.now) (λ why. ⊥)) }
{
    let Some(path) = path else {
        return Ok(None);
    };
    let inputs = read(files, alloc, path)?;
    Ok(Some(inputs))
}

/// Reads the events of the trace's file that arguments name, if they are in one of their own.
fn trace_of<'a, F: InputFiles>(
    files: &F,
    alloc: Global,
    path: Option<&'a str>,
) -> Result<Option<Vec<u8>>, NoInput<'a>>
    ensures bytes { IfOk result (λ trace. IsTraceHeld (F.Holds files.now) (option_map (λ path. path.now) path.entry) (option_map (λ bytes. bytes.items) trace)) }
    ensures failed { IfErr result (IsReason (F.Fails files.now) (IsTraceless (F.Holds files.now) (option_map (λ path. path.now) path.entry))) }
{
    let Some(path) = path else {
        return Ok(None);
    };
    let trace = read(files, alloc, path)?;
    match events_in(&trace) {
        Some(events) => {
            let events = Vec::from_slice(alloc, events)?;
            Ok(Some(events))
        }
        None => Err(NoInput::Misfit(path, Misfit::NoEvents)),
    }
}

/// Returns what a session gets of the files if the program's file, which is read, fits the others.
fn fitting_input<'a, F: InputFiles>(
    files: &F,
    alloc: Global,
    command: &str,
    is_untraced: bool,
    named: &Naming<'a>,
    program: Vec<u8>,
) -> Result<SessionInput<'a>, NoInput<'a>>
    ensures made { IfOk result (λ made. IsRead (F.Holds files.now) command.now is_untraced (seen named.now) program.items made.is_text made.draws_run (option_map seen_contents made.contents)) }
    ensures lines { IfOk result (λ made. option_map (λ path. path.now) made.lines ≡ separate_lines_is (seen named.now)) }
    ensures failed { IfErr result (IsReason (F.Fails files.now) (IsTraceless (F.Holds files.now) (separate_events_is command.now is_untraced (seen named.now)))) }
{
    let is_text = is_named_text(alloc, named.program, &program)?;
    let inputs = inputs_of(files, alloc, named.joined_inputs())?;
    let trace = trace_of(files, alloc, named.separate_events(command, is_untraced))?;
    Ok(SessionInput {
        is_text,
        draws_run: named.draws_run(command, is_untraced),
        contents: Some(Contents {
            program,
            inputs,
            trace,
            trace_follows: named.follows_inputs(command, is_untraced),
        }),
        lines: named.separate_lines(),
    })
}

/// Returns what a session gets of the files, if one is to be opened.
fn opened<'a, F: InputFiles>(
    files: &F,
    alloc: Global,
    command: &str,
    named: &Naming<'a>,
) -> Result<SessionInput<'a>, NoInput<'a>>
    requires { opens_files_is command.now (seen named.now) ≡ true }
    ensures made { IfOk result (λ made. IsSessionInput (F.Holds files.now) command.now (seen named.now) made.is_text made.draws_run (option_map seen_contents made.contents)) }
    ensures lines { IfOk result (λ made. option_map (λ path. path.now) made.lines ≡ separate_lines_is (seen named.now)) }
    ensures failed { IfErr result (IsReason (F.Fails files.now) (AreMisfits (F.Holds files.now) command.now (seen named.now))) }
{
    let program = read(files, alloc, named.program_path())?;
    let is_untraced = has_no_trace(command, &program);
    match named.misfit(command, is_untraced, &program) {
        Some((path, why)) => Err(NoInput::Misfit(path, why)),
        None => fitting_input(files, alloc, command, is_untraced, named, program),
    }
}

/// Opens the files that the arguments of a command name, and returns what a session gets. Nothing is read if they name none, or request help.
pub fn session_input<'a, F: InputFiles>(
    files: &F,
    alloc: Global,
    command: &str,
    named: &Naming<'a>,
) -> Result<SessionInput<'a>, NoInput<'a>>
    ensures made { IfOk result (λ made. IsSessionInput (F.Holds files.now) command.now (seen named.now) made.is_text made.draws_run (option_map seen_contents made.contents)) }
    ensures lines { IfOk result (λ made. IfSome made.contents (λ contents. option_map (λ path. path.now) made.lines ≡ separate_lines_is (seen named.now))) }
    // It fails only if an allocation fails, a file can't be read, or files don't fit each other.
    ensures failed { IfErr result (IsReason (F.Fails files.now) (AreMisfits (F.Holds files.now) command.now (seen named.now))) }
{
    if named.opens_files(command) {
        return opened(files, alloc, command, named);
    }
    Ok(SessionInput {
        is_text: false,
        draws_run: false,
        contents: None,
        lines: None,
    })
}
