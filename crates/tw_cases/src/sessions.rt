//! Cases of whole sessions.

use crate::calls::{has_line_feed, is_answered, is_kept};
use crate::words::{read_words, unescaped};
use std::alloc::Global;
use std::ops::Range;
use std::sync::Wait;
use std::thread::Threads;
use std::time::Clock;
use tw_case_lines::{Book, Complaint, Text, read_bytes};
use tw_cli::{NoOrder, read_order};
use tw_session::{InStream, NoGate, OutStream, Status, session, unordered_session};

/// Returns the status and the whole text of a session with these arguments and this input.
pub fn tw_text<H: AllocGlobal + Threads + Wait + Clock + Sync>(
    rt: &H,
    words: &[String],
    input: &[u8],
) -> Result<String, Complaint> {
    let (code, left, written) = ended(rt, words, input);
    let is_unread = left == input.len() && !input.is_empty();
    session_text(rt.alloc(), code, written, is_unread)
}

/// Runs a session of a case. All sessions are called here, so that the contract of `session` is read once.
fn status_of<H, R: InStream, W: OutStream>(
    rt: &H,
    words: &[String],
    reader: &mut R,
    writer: &mut W,
) -> Status
where
    H: AllocGlobal + Threads + Wait + Clock + Sync,
{
    match read_order(rt.alloc(), words) {
        Ok(order) => session(rt, &NoGate, order, reader, writer),
        Err(why) => unordered_session(rt.alloc(), why, writer),
    }
}

/// Runs a session of a case, and returns its exit status.
pub fn code_of<H, R: InStream, W: OutStream>(
    rt: &H,
    words: &[String],
    reader: &mut R,
    writer: &mut W,
) -> u8
where
    H: AllocGlobal + Threads + Wait + Clock + Sync,
{
    status_of(rt, words, reader, writer).code()
}

/// Adds why arguments are rejected, or `nothing` if they aren't.
fn put_reason(text: &mut Text, why: NoOrder) {
    match why {
        NoOrder::Refused(complaint) => text.put(complaint.line()),
        _other => text.put("nothing"),
    }
}

/// Returns the output of a case: why arguments are rejected, or `nothing`.
pub fn errors_text<H: AllocGlobal>(rt: &H, words: &str) -> Result<String, Complaint> {
    let words = read_words(rt.alloc(), words)?;
    let mut text = Text::new(rt.alloc());
    match read_order(rt.alloc(), words.as_slice()) {
        Ok(_order) => text.put("nothing"),
        Err(why) => put_reason(&mut text, why),
    }
    text.into_line()
}

/// The status that is returned if the library's result differs from the session's.
const OTHERWISE: u8 = 99;

/// Returns whether the library's result is this status and this text: in a buffer of each of these sizes, unless an argument has a line feed, which
/// only the call with a handle takes.
fn is_called(
    alloc: Global,
    words: &[String],
    input: &[u8],
    printed: (u8, &[u8]),
    sizes: Range<usize>,
) -> bool {
    if has_line_feed(words) {
        is_kept(alloc, words, input, printed)
    } else {
        is_answered(alloc, words, input, printed, sizes)
    }
}

/// Runs a session of a case. Returns its status, the number of unread bytes, and the text. If the library's result differs,
/// returns `OTHERWISE` and no text.
pub fn ended<H: AllocGlobal + Threads + Wait + Clock + Sync>(
    rt: &H,
    words: &[String],
    input: &[u8],
) -> (u8, usize, Vec<u8>) {
    let mut reader = input;
    let mut writer = Vec::new(rt.alloc());
    let code = code_of(rt, words, &mut reader, &mut writer);
    let printed = (code, writer.as_slice());
    let just_enough = writer.len()..writer.len().saturating_add(1);
    if is_called(rt.alloc(), words, input, printed, just_enough) {
        (code, reader.len(), writer)
    } else {
        (OTHERWISE, reader.len(), Vec::new(rt.alloc()))
    }
}

/// Returns the status and the text of a session. The status is `OTHERWISE` if the library's result differs with a handle, or with any buffer size up
/// to one byte more than the text.
pub fn called_text<H: AllocGlobal + Threads + Wait + Clock + Sync>(
    rt: &H,
    words: &[String],
    input: &[u8],
) -> Result<String, Complaint> {
    let (code, _, written) = ended(rt, words, input);
    let printed = (code, written.as_slice());
    let sizes = 0..written.len().saturating_add(2);
    let is_same = is_called(rt.alloc(), words, input, printed, sizes);
    if is_same && is_kept(rt.alloc(), words, input, printed) {
        session_text(rt.alloc(), code, written, false)
    } else {
        session_text(rt.alloc(), OTHERWISE, written, false)
    }
}

/// Returns the status of a session, and the last line of its text.
pub fn ends_text<H: AllocGlobal + Threads + Wait + Clock + Sync>(
    rt: &H,
    words: &[String],
    input: &[u8],
) -> Result<String, Complaint> {
    let printed = tw_text(rt, words, input)?;
    let (code, text) = printed.as_str().split_once(' ').unwrap_or(("", ""));
    let last = match text.rsplit_once(" / ") {
        Some((_, last)) => last,
        None => text,
    };
    Ok(format!(in rt.alloc(); "{code} .. {last}")?)
}

/// Returns the status of a session without input, and which of these phrases its text lacks.
pub fn phrases_text<H: AllocGlobal + Threads + Wait + Clock + Sync>(
    rt: &H,
    words: &str,
    phrases: &str,
) -> Result<String, Complaint> {
    let words = read_words(rt.alloc(), words)?;
    let (code, _, written) = ended(rt, words.as_slice(), &[]);
    match str::from_utf8(written.as_slice()) {
        Ok(written) => lacks_text(rt.alloc(), code, written, phrases),
        Err(_) => Err(Complaint::WrittenBytes),
    }
}

/// Returns a session's status, and which of these phrases its text lacks.
fn lacks_text(alloc: Global, code: u8, written: &str, phrases: &str) -> Result<String, Complaint> {
    let mut text = Text::new(alloc);
    text.number("", u64::from(code));
    for phrase in phrases.split(" / ") {
        if !written.contains(phrase) {
            text.put(" without ");
            text.put(phrase);
        }
    }
    text.into_line()
}

/// Reads the pieces of a session's input in a case, which are separated by ` then `.
pub fn read_input(alloc: Global, book: &Book, text: &str) -> Result<Vec<u8>, Complaint> {
    let mut input = Vec::new(alloc);
    for part in text.split(" then ") {
        input.extend_from_slice(read_part(alloc, book, part)?.as_slice())?;
    }
    Ok(input)
}

/// Reads a text, a repeated text, or bytes as digits, which events may follow.
fn read_part(alloc: Global, book: &Book, text: &str) -> Result<Vec<u8>, Complaint> {
    if let Some(bytes) = text.strip_prefix("hex ") {
        return match bytes.split_once(" events ") {
            Some((bytes, lines)) => with_history(alloc, book, bytes, lines),
            None => digits_of(alloc, read_bytes(alloc, book, bytes)?.as_slice()),
        };
    }
    match text.split_once(" times ") {
        Some((times, text)) => repeated(alloc, times.parse::<usize>()?, text),
        None => unescaped(alloc, text),
    }
}

/// Returns bytes of a session's input in hex digits.
fn digits_of(alloc: Global, bytes: &[u8]) -> Result<Vec<u8>, Complaint> {
    Ok(hex::encode(alloc, bytes)?.into_bytes())
}

/// Returns a replay's input for a session: the digits of bytes, a line `events`, and the lines, which commas separate.
fn with_history(
    alloc: Global,
    book: &Book,
    bytes: &str,
    lines: &str,
) -> Result<Vec<u8>, Complaint> {
    let mut input = digits_of(alloc, read_bytes(alloc, book, bytes)?.as_slice())?;
    input.extend_from_slice(b"\nevents\n")?;
    input.extend_from_slice(lines.replace(alloc, ",", "\n")?.as_bytes())?;
    Ok(input)
}

/// Returns the bytes of a text with escapes, this many times, for a session's input.
fn repeated(alloc: Global, times: usize, text: &str) -> Result<Vec<u8>, Complaint> {
    let text = unescaped(alloc, text)?;
    Ok(text.as_slice().repeat(alloc, times)?)
}

/// Returns how many shorter prefixes an input has, if a session answers each with a line of a known form; otherwise the first that it doesn't.
pub fn cuts_text<H: AllocGlobal + Threads + Wait + Clock + Sync>(
    rt: &H,
    words: &[String],
    input: &[u8],
) -> Result<String, Complaint> {
    for count in 0..input.len() {
        let (code, _, written) = ended(rt, words, &input[..count]);
        let printed = session_text(rt.alloc(), code, written, false)?;
        if !is_known(printed.as_str()) {
            let mut text = Text::new(rt.alloc());
            text.number("the first ", count as u64);
            text.put(" come to ");
            text.put(printed.as_str());
            return text.into_line();
        }
    }
    let mut text = Text::new(rt.alloc());
    text.number("", input.len() as u64);
    text.put(" cuts");
    text.into_line()
}

/// Returns whether the text has the digits of bytes, or the fault of an assembly text and its line.
fn is_known(printed: &str) -> bool {
    if let Some(digits) = printed.strip_prefix("0 ") {
        return digits.bytes().all(|byte| byte.is_ascii_hexdigit());
    }
    let Some(fault) = printed.strip_prefix("1 refused A0") else {
        return false;
    };
    match fault.split_once(" at line ") {
        Some(("1" | "2" | "3" | "4" | "5" | "6", line)) => line.parse::<usize>().is_ok(),
        _ => false,
    }
}

/// Returns a session's output as one line: the status, whether input was left unread, and the text.
fn session_text(
    alloc: Global,
    code: u8,
    written: Vec<u8>,
    is_unread: bool,
) -> Result<String, Complaint> {
    let mut text = Text::new(alloc);
    text.number("", u64::from(code));
    text.put(if is_unread { " unread " } else { " " });
    text.put_bytes(written.as_slice());
    if written.as_slice().last() != Some(&b'\n') {
        text.put(" (without a line end)");
    }
    text.into_line()
}
