//! Loads programs, and verifies them.

ghost use Rattle.std.specs.Prelude.{◌≡◌, IfOk, IfSome, Some};
ghost use Rattle.tw_handles.specs.Codes.{loading_code};
ghost use Rattle.tw_handles.specs.Loading.{IsKept, IsLoading, IsSourceLoaded, IsVerified, IsWithinLength, program_in, verdict_numbers};
ghost use Rattle.tw_handles.specs.Numbers.{filled};
ghost use Rattle.tw_handles.specs.Texts.{MayBeTold};
ghost use Rattle.tw_verdict.specs.Format.{format_of as format_is};
ghost use Rattle.tw_visible.specs.Visible.{HidesNothing};

use crate::codes;
use crate::handle::Handle;
use crate::held::Held;
use crate::numbers::put;
use crate::running::option_at;
use crate::texts::keep_text;
use std::alloc::{AllocError, Global};
use std::sync::Arc;
use tw_verdict::{Format, SourceVerdict, format_of, read_source, refused_at, without_line};
use tw_verify::Verified;

/// The greatest length of a source, if the caller says none: that of a session.
const USUAL_MOST: u64 = 16_777_216;

/// The highest version of the language, if the caller says none: the last one when the options of a load had no version.
const USUAL_NEWEST: u64 = 4;

/// Puts an accepted program into a handle.
fn handle_of(alloc: Global, verified: Verified) -> Result<Handle, AllocError>
    ensures { IfOk result (λ h. program_in h.held ≡ Some verified) }
{
    match Arc::new(alloc, verified) {
        Ok(verified) => Handle::of_held(alloc, Held::Program(verified)),
        Err(_) => Err(AllocError),
    }
}

/// Puts an accepted program into a handle, whose former contents are freed. Returns the verdict on it.
fn keep(
    alloc: Global,
    verified: Verified,
    reading: SourceVerdict,
    program: &mut Handle,
) -> SourceVerdict
    ensures { IsKept verified reading program.old.held program.new.held result }
{
    match handle_of(alloc, verified) {
        Ok(handle) => {
            *program = handle;
            reading
        }
        Err(_) => SourceVerdict::no_memory(),
    }
}

/// Reads and verifies a source. If it is accepted, and of a version up to `newest`, the handle holds the program, and its former contents are freed.
fn load(
    alloc: Global,
    format: Format,
    newest: u64,
    source: &[u8],
    told: bool,
    program: &mut Handle,
) -> (SourceVerdict, Option<Vec<u8>>)
    ensures is { IsSourceLoaded format newest source.now program.old.held program.new.held result.0 }
    ensures words { IfSome result.1 (λ words. HidesNothing words.items) }
{
    let (found, reading, words) = read_source(alloc, format, source, told);
    match found {
        Some(verified) if u64::from(verified.program().version().number()) <= newest => {
            (keep(alloc, verified, reading, program), None)
        }
        Some(_) => (without_line(refused_at(b'F', 2, 0, 3)), None),
        None => (reading, words),
    }
}

/// Like `load`, for a source that has at most so many bytes; a longer one is H02.
fn load_within(
    alloc: Global,
    format: Format,
    options: &[u64],
    source: &[u8],
    told: bool,
    program: &mut Handle,
) -> (SourceVerdict, Option<Vec<u8>>)
    ensures is { IsWithinLength format options.now source.now program.old.held program.new.held result.0 }
    ensures words { IfSome result.1 (λ words. HidesNothing words.items) }
{
    if source.len() as u64 > option_at(options, 0, USUAL_MOST) {
        (without_line(refused_at(b'H', 2, 0, 0)), None)
    } else {
        let newest = option_at(options, 1, USUAL_NEWEST);
        load(alloc, format, newest, source, told, program)
    }
}

/// Writes a verdict in numbers, and returns its code.
fn put_verdict(verdict: SourceVerdict, numbers: &mut [u64]) -> u8
    ensures numbers { numbers.new ≡ filled (verdict_numbers verdict) numbers.old }
    ensures code { result ≡ loading_code verdict.verdict.letter }
{
    let at = verdict.verdict;
    let found = [
        at.letter as u64,
        at.number as u64,
        at.engines as u64,
        at.workers as u64,
        at.procedure as u64,
        at.place as u64,
        verdict.line as u64,
        verdict.word as u64,
        verdict.column as u64,
    ];
    put(&found, numbers);
    codes::of_letter(at.letter)
}

/// Reads and verifies a program's bytes, hex text or assembly text. The letter of a format is `b`, `h` or `t`; any other lets it be found. `options`
/// are the greatest length, 16 MiB if it is left out, and the highest version of the language, 4 if it is left out. A longer source is H02, and a
/// program of a later version F02. If the program is accepted, the handle holds it, and its former contents are freed. The verdict is written in
/// numbers, in the order of its fields. Returns `NO_OPTIONS` if there are more options.
pub fn load_source(
    alloc: Global,
    source: &[u8],
    format: u8,
    options: &[u64],
    program: &mut Handle,
    numbers: &mut [u64],
) -> u8
    ensures { IsLoading (format_is format source.now) options.now source.now program.old.held program.new.held numbers.old numbers.new result }
{
    if options.len() > 2 {
        return codes::NO_OPTIONS;
    }
    let format = format_of(format, source);
    let (verdict, _words) = load_within(alloc, format, options, source, false, program);
    put_verdict(verdict, numbers)
}

/// Puts words about an error in a line into a handle, if there are some.
fn keep_words(alloc: Global, line: usize, made: Option<Vec<u8>>, words: &mut Handle)
    requires { IfSome made (λ words. HidesNothing words.items) }
    ensures { MayBeTold words.old.held words.new.held }
{
    match made {
        Some(made) if line > 0 => {
            let _code = keep_text(alloc, made, words);
        }
        _ => {}
    }
}

/// Like `load_source`. If the source is an assembly text with an error in a line, the handle `words` holds what `tw check --text` prints of it.
pub fn load_told(
    alloc: Global,
    source: &[u8],
    format: u8,
    options: &[u64],
    program: &mut Handle,
    numbers: &mut [u64],
    words: &mut Handle,
) -> u8
    ensures loading { IsLoading (format_is format source.now) options.now source.now program.old.held program.new.held numbers.old numbers.new result }
    ensures words { MayBeTold words.old.held words.new.held }
{
    if options.len() > 2 {
        return codes::NO_OPTIONS;
    }
    let format = format_of(format, source);
    let (verdict, made) = load_within(alloc, format, options, source, true, program);
    keep_words(alloc, verdict.line, made, words);
    put_verdict(verdict, numbers)
}

/// Verifies the bytes of a program, and writes the verdict in numbers, without the position in a text.
pub fn verify(alloc: Global, bytes: &[u8], numbers: &mut [u64]) -> u8
    ensures { IsVerified bytes.now numbers.old numbers.new result }
{
    let (_found, verdict, _words) = read_source(alloc, Format::Bytes, bytes, false);
    put_verdict(verdict, numbers)
}
