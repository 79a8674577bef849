//! Cases of symbolic assembly.

use crate::words::unescaped;
use std::alloc::Global;
use std::fs;
use std::rt::Files;
use tw_asm::assemble;
use tw_binary::encode;
use tw_case_lines::Complaint;
use tw_symbols::{expanded_text, other_line};

/// Returns the bytes of a case's word as text.
fn word_text(alloc: Global, word: &str) -> Result<String, Complaint> {
    String::from_utf8(unescaped(alloc, word)?).map_err(|_| Complaint::WordBytes)
}

/// Returns the output of a case that compares a text with another one that is to be its expansion, after a line `becomes`: the line at which it isn't. If
/// the other one ends with a line `..`, only the lines before that are compared.
pub fn renamed_text(alloc: Global, texts: &str) -> Result<String, Complaint> {
    let texts = word_text(alloc, texts)?;
    let Some((text, plain)) = texts.as_str().split_once("\nbecomes\n") else {
        return Err(Complaint::Names);
    };
    let (plain, up_to) = match plain.strip_suffix("\n..") {
        Some(front) => (front, Some(front.lines().count())),
        None => (plain, None),
    };
    match other_line(alloc, text, plain, up_to)? {
        Some(line) => Ok(format!(in alloc; "another at line {line}")?),
        None => Ok("renamed".to_string(alloc)?),
    }
}

/// Returns the output of a case that expands a text, with a slash for each line end; `itself` if it has no names, or its first
/// error.
pub fn names_text(alloc: Global, text: &str) -> Result<String, Complaint> {
    let text = word_text(alloc, text)?;
    match expanded_text(alloc, text.as_str()) {
        Ok(None) => Ok("itself".to_string(alloc)?),
        Ok(Some(plain)) => one_line(alloc, plain.as_str()),
        Err(rejection) => {
            let word = str::from_utf8(rejection.word).map_err(|_| Complaint::WrittenBytes)?;
            Ok(format!(in alloc;
                "N{:02} at line {}: {word}",
                rejection.no.number(),
                rejection.line
            )?)
        }
    }
}

/// Returns a case's text of several lines as one, with ` / ` between them.
fn one_line(alloc: Global, plain: &str) -> Result<String, Complaint> {
    let line = plain.trim_matches('\n').replace(alloc, "\n", " / ")?;
    Ok(line.as_str().trim().to_string(alloc)?)
}

/// Returns whether a file of symbolic assembly and one of plain assembly have the same program.
pub fn alike_text<R: AllocGlobal + Files>(rt: &R, files: &str) -> Result<String, Complaint> {
    let Some((named, plain)) = files.split_once(' ') else {
        return Err(Complaint::Names);
    };
    let named = fs::read_to_string(rt, named)?;
    let plain = fs::read_to_string(rt, plain)?;
    let Ok(Some(text)) = expanded_text(rt.alloc(), named.as_str()) else {
        return Err(Complaint::Names);
    };
    let bytes = bytes_of(rt.alloc(), text.as_str())?;
    let wanted = bytes_of(rt.alloc(), plain.as_str())?;
    let printed = if bytes.as_slice() == wanted.as_slice() {
        "alike"
    } else {
        "other bytes"
    };
    Ok(printed.to_string(rt.alloc())?)
}

/// Returns the encoding of the program of a case's assembly text, or complains.
fn bytes_of(alloc: Global, text: &str) -> Result<Vec<u8>, Complaint> {
    let program = assemble(alloc, text).map_err(|_| Complaint::Assembly)?;
    Ok(encode(alloc, &program)?)
}
