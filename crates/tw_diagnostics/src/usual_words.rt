//! Instructions of other languages, and what does their work here.

use std::alloc::AllocError;
use tw_lexer::{put, put_both};

/// A word that people type, and what it is here.
struct UsualWord<'a> {
    word: &'a str,
    here: &'a str,
}

/// The words that people type.
#[rattlefmt::skip]
const USUAL_WORDS: [UsualWord<'static>; 23] = [
    UsualWord { word: "MOV", here: "COPY copies a register, INT and TEXT set one" },
    UsualWord { word: "MOVE", here: "COPY copies a register, INT and TEXT set one" },
    UsualWord { word: "SET", here: "INT and TEXT set a register, STORE sets a datum" },
    UsualWord { word: "LOAD", here: "GET reads a datum, LOOK a member, MGET a value of a map" },
    UsualWord { word: "READ", here: "GET reads a datum, LOOK a member, MGET a value of a map" },
    UsualWord { word: "WRITE", here: "STORE sets a datum" },
    UsualWord { word: "PRINT", here: "STORE sets an output, a parameter `write` of main" },
    UsualWord { word: "INC", here: "ADD adds a register in which INT put 1" },
    UsualWord { word: "DEC", here: "SUB subtracts a register in which INT put 1" },
    UsualWord { word: "MOD", here: "REM is the remainder of DIV" },
    UsualWord { word: "CMP", here: "JEQ and JLT compare two registers and skip at once" },
    UsualWord { word: "IF", here: "JEQ and JLT skip forward to a label, JMP always does" },
    UsualWord { word: "JNE", here: "JEQ skips if two registers are equal; a JMP after it is for those that differ" },
    UsualWord { word: "JGE", here: "JLT skips if the first register is less; a JMP after it is for the others" },
    UsualWord { word: "JLE", here: "JLT skips if the first register is less, JEQ if both are equal" },
    UsualWord { word: "LOOP", here: "REPEAT and a number begin a loop, END ends it" },
    UsualWord { word: "FOR", here: "REPEAT and a number begin a loop, END ends it" },
    UsualWord { word: "WHILE", here: "REPEAT and a number begin a loop, END ends it" },
    UsualWord { word: "CALL", here: "RULE makes a task that runs a procedure once its data are there, PUT at once" },
    UsualWord { word: "RETURN", here: "RET ends a task; what it leaves is in data" },
    UsualWord { word: "HALT", here: "RET ends a task" },
    UsualWord { word: "EXIT", here: "RET ends a task" },
    UsualWord { word: "NOP", here: "JMP +0 does nothing" },
];

/// Returns whether these capitals are an instruction elsewhere, for which `put_usual` has a line.
pub(crate) fn is_usual(capitals: &[u8]) -> bool {
    for usual in &USUAL_WORDS {
        if usual.word.as_bytes() == capitals {
            return true;
        }
    }
    false
}

/// Adds a line with what does the work of a word here, if it is an instruction elsewhere.
pub fn put_usual(out: &mut Vec<u8>, word: &str) -> Result<(), AllocError> {
    for usual in &USUAL_WORDS {
        if word.eq_ignore_ascii_case(usual.word) {
            put_both(out, usual.word, ": ")?;
            put(out, usual.here)?;
            return put(out, "\n");
        }
    }
    Ok(())
}
