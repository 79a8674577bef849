//! The lines of the input.

use crate::book::Book;
use crate::bytes::read_bytes;
use crate::complaint::Complaint;
use std::alloc::{AllocError, Global};

/// A case: what it runs, and its expected output.
#[derive(Clone, Copy)]
pub struct CaseLine<'l> {
    name: &'l str,
    /// The fields between the name and the expected output: KIND WORDS, then what the kind reads.
    pub fields: &'l str,
    wanted: &'l str,
}

/// A line that was read.
#[derive(Drop)]
pub enum Line<'l> {
    /// An empty line, a comment, or bytes that have a name now.
    Done,
    /// A line that can't be read, with the complaint to be printed.
    Faulty(String),
    Case(CaseLine<'l>),
}

/// Reads a line of a cases file: a case, or named bytes. Adds its name to the book.
pub fn read_line<'l>(
    alloc: Global,
    book: &mut Book,
    line: &'l str,
) -> Result<Line<'l>, AllocError> {
    let line = line.trim();
    if line.is_empty() || line.starts_with('#') {
        return Ok(Line::Done);
    }
    match line.strip_prefix("let ") {
        Some(text) => name_line(alloc, book, text),
        None => case_line(alloc, book, line),
    }
}

/// Names bytes, unless the line has a fault.
fn name_line<'l>(alloc: Global, book: &mut Book, text: &'l str) -> Result<Line<'l>, AllocError> {
    match name_bytes(alloc, book, text) {
        Ok(()) => Ok(Line::Done),
        Err(complaint) => {
            let why = complaint.text();
            Ok(Line::Faulty(format!(in alloc; "let {text}: {why}")?))
        }
    }
}

/// Names the bytes of a line such as `NAME = BYTES` in the book.
fn name_bytes(alloc: Global, book: &mut Book, text: &str) -> Result<(), Complaint> {
    let Some((name, digits)) = text.split_once(" = ") else {
        return Err(Complaint::Naming);
    };
    let bytes = read_bytes(alloc, book, digits)?;
    book.name(name.to_string(alloc)?, bytes)
}

/// Reads a case, unless an earlier one has its name.
fn case_line<'l>(alloc: Global, book: &mut Book, line: &'l str) -> Result<Line<'l>, AllocError> {
    let (name, rest) = first_field(line);
    let (fields, wanted) = last_field(rest);
    if book.note(alloc, name)? {
        return Ok(Line::Case(CaseLine {
            name,
            fields,
            wanted,
        }));
    }
    Ok(Line::Faulty(format!(in alloc; "{name}: the case has no name of its own")?))
}

impl CaseLine<'_> {
    /// Counts the case if this is its expected output. Otherwise returns its name and the difference, or the complaint.
    pub fn judged(
        self,
        alloc: Global,
        book: &mut Book,
        came: Result<String, Complaint>,
    ) -> Result<Option<String>, AllocError> {
        let name = self.name;
        match difference(alloc, self.wanted, came)? {
            Some(printed) => Ok(Some(format!(in alloc; "{name}: {printed}")?)),
            None => {
                book.count();
                Ok(None)
            }
        }
    }
}

/// Returns the expected and the actual output if they differ, or the complaint.
fn difference(
    alloc: Global,
    wanted: &str,
    case_text: Result<String, Complaint>,
) -> Result<Option<String>, AllocError> {
    match case_text {
        Ok(got) if got.as_str() == wanted => Ok(None),
        Ok(got) => Ok(Some(format!(in alloc; "wanted {wanted}, got {got}")?)),
        Err(complaint) => Ok(Some(complaint.text().to_string(alloc)?)),
    }
}

/// Returns the text before the first bar, and the text after it.
pub fn first_field(text: &str) -> (&str, &str) {
    match text.split_once('|') {
        Some((first, rest)) => (first.trim(), rest.trim()),
        None => (text.trim(), ""),
    }
}

/// Returns the text before the last bar, and the text after it.
fn last_field(text: &str) -> (&str, &str) {
    match text.rsplit_once('|') {
        Some((rest, last)) => (rest.trim(), last.trim()),
        None => ("", text.trim()),
    }
}
