//! Explains the codes of errors and traps.

ghost use Rattle.std.specs.Prelude.{◌≡◌, ◌++◌, ◌∷◌, [], true, false, codes, is_some, IfOk, IfSome, MatchOption, OnOk};
ghost use Rattle.std.specs.List.{find, list_any};
ghost use Rattle.std.specs.Str.{bytes_eq};
ghost use Rattle.tw_cli.specs.Explanations.{IsExplanation, IsMeaningOf, assembly_numbers, byte_numbers, full_number, is_among, is_number, meant, name_numbers, names_code, session_numbers, trap_numbers, verifier_numbers};

use crate::explained_names::NAMES;
use crate::explained_programs::{BYTES, TRAPS, VERIFIER};
use std::alloc::{AllocError, Global};
use tw_lexer::put;
use tw_order::Form;

/// The explanation that is requested.
#[derive(Drop)]
pub struct Explained {
    /// The requested form.
    pub form: Form,
    /// The code; empty for the list of all codes.
    pub code: Vec<u8>,
    pub text: Vec<u8>,
}

/// The explanation of a code.
#[derive(Clone, Copy)]
pub(crate) struct Explanation {
    pub number: &'static str,
    /// The meaning.
    pub meaning: &'static str,
    /// The requirement.
    pub asked: &'static str,
    /// The usual mistake.
    pub mistake: &'static str,
    /// How to correct it.
    pub mending: &'static str,
}

/// The codes of input, openings, traces and runs.
#[rattlefmt::skip]
const SESSION: [Explanation; 12] = [
    Explanation { number: "H01",
        meaning: "the input isn't hex text",
        asked: "two hexadecimal digits a byte, with nothing between them except spaces, tabs and line ends",
        mistake: "assembly text was given instead of hex text, or `tw asm` before the pipe had rejected its text",
        mending: "give the option --text, or look at what `tw asm` alone says" },
    Explanation { number: "H02",
        meaning: "the input is too long",
        asked: "at most 16,777,216 bytes",
        mistake: "the wrong file was given, or a trace of very many events",
        mending: "give the program alone, or fewer events" },
    Explanation { number: "H03",
        meaning: "text input isn't UTF-8",
        asked: "assembly text and traces in UTF-8",
        mistake: "a file of another encoding, or of bytes, was given instead of text",
        mending: "save the file as UTF-8; hex text is given without --text" },
    Explanation { number: "O01",
        meaning: "there are more or fewer inputs than main takes",
        asked: "an input for each `closed` and `ref` parameter of main, in order",
        mistake: "no input was given, or one for an output",
        mending: "give one argument for each input: int:7, text:abc, ints:1=7,2=8 or texts:1=\"a\"" },
    Explanation { number: "O02",
        meaning: "an input is of another type than its parameter, or is too large",
        asked: "the parameter's type; texts of at most 4,096 bytes; at most 1,000 members, or 100,000 values of a map, with subscripts that rise, texts by their bytes",
        mistake: "int: for a container, ints: for a tcont, or subscripts in another order",
        mending: "use ints: or texts: for cont and map, tints: or ttexts: for tcont and tmap, ints: and tints: for sums, and let the subscripts rise" },
    Explanation { number: "O03",
        meaning: "the program names an actor that isn't there",
        asked: "as many engines and workers as the targets of RULE, PUT, RULEV and PUTV need; `tw check` prints them",
        mistake: "--engines or --workers was left out",
        mending: "give the numbers that `tw check` prints, or let targets be `any`" },
    Explanation { number: "O04",
        meaning: "the limit of events is out of its range",
        asked: "1 to 1,000,000",
        mistake: "a limit of 0",
        mending: "give --limit a number in the range" },
    Explanation { number: "O05",
        meaning: "memory ran out while the run was opened",
        asked: "memory for the inputs and the queues",
        mistake: "a limit on the process's memory",
        mending: "give it more memory" },
    Explanation { number: "O06",
        meaning: "main has the wrong shape, as reported by `tw replay` and `tw picture`, which don't verify",
        asked: "what V16 requires",
        mistake: "as at V16",
        mending: "as at V16; see `tw explain V16`" },
    Explanation { number: "O07",
        meaning: "the program's bounds are above a cap, so it isn't admitted",
        asked: "bounds of at most --most-tasks, --most-instructions, --most-data, --most-bytes, --most-budget and --most-members",
        mistake: "a loop of more iterations than its inputs need, or a procedure that starts itself, without a small --limit",
        mending: "make loops shorter, give a smaller --limit, or a larger cap; `tw check --bounds --limit 1000` prints the bounds" },
    Explanation { number: "E01",
        meaning: "a line of the trace is no event",
        asked: "take w0, local w0 3, call w0, end w0, ask e0 1 0, deliver s0 2 1 0 or release e0 1",
        mistake: "a misspelled word, local with 0 instructions, or the report after the trace, without a line `end`",
        mending: "lines count from 1 after `events`: correct that line, or take what `tw run --trace` writes" },
    Explanation { number: "X01",
        meaning: "the threads didn't finish the run",
        asked: "that each makes the events of its own actor, until the run ends",
        mistake: "none in the program: it was verified, and this isn't expected",
        mending: "run it again; if it is repeated, report it to the maintainers" },
];

/// The codes of assembly text.
#[rattlefmt::skip]
const ASSEMBLY: [Explanation; 7] = [
    Explanation { number: "A01",
        meaning: "a line's first word is unknown or misplaced",
        asked: "`version 2`, `version 4`, `version 5` or `proc` first, `regs` next after each `proc`, and then labels, instructions or the next `proc`",
        mistake: "an instruction in small letters or of a later version, a comment after # or //, no `regs` line, `const` or `let` in a text whose first line isn't `names`, `names` if `tw asm` is called without --names, or a byte order mark before the first word",
        mending: "write instructions in capitals, the version first, comments after ; and a `regs` line after each `proc`; save the file without a byte order mark" },
    Explanation { number: "A02",
        meaning: "an operand has the wrong form, or there are too few or too many",
        asked: "operands of their forms and in their order: v0, d0, a number, a quoted text, a type, a label or +n",
        mistake: "no skip after ADD or LOOK, a constant in place of a register, d2 among RULE's arguments in place of 2, no priority, a comma, a register of the other bank, \\t in a text or a quote that isn't closed, an instruction after its label, a no-break space, tcont without `version 2`, map without `version 4` or without its values' type, or names in a text whose first line isn't `names`",
        mending: "with --text the word is reported, and what was expected; take the operands from the table of instructions: the skip +0 continues after the instruction, and INT puts a constant into a register" },
    Explanation { number: "A03",
        meaning: "the procedure has no label of this name",
        asked: "a label line `name:` in the same procedure",
        mistake: "a name that is spelled in two ways, or a label of another procedure",
        mending: "write the label in the procedure that names it; small and capital letters differ" },
    Explanation { number: "A04",
        meaning: "the procedure already has a label of this name",
        asked: "each label once in its procedure",
        mistake: "lines were copied with their labels",
        mending: "give the second label another name" },
    Explanation { number: "A05",
        meaning: "the label isn't after the instruction that names it",
        asked: "skips that lead forward",
        mistake: "a loop was written as a skip back to its first line",
        mending: "write loops with REPEAT and END" },
    Explanation { number: "A06",
        meaning: "a number, a count, a nesting, a name or a text is past its limit, there is no such version, or a procedure has no instruction",
        asked: "v0 to v15, d0 to d15, at most 8 parameters, 16 registers, 4,096 instructions, 64 procedures, 3 containers, version 1, 2, 4 or 5",
        mistake: "a procedure that is still empty, REPEAT 0 or REPEAT past 1000, or a number past 64 bits",
        mending: "end each procedure with RET, and keep to the limit" },
    Explanation { number: "A07",
        meaning: "memory ran out while the text was read",
        asked: "memory for the program",
        mistake: "a limit on the process's memory",
        mending: "give it more memory" },
];

/// Returns the first of these rows with this code.
fn first_named(rows: &[Explanation], word: &[u8]) -> Option<Explanation>
    ensures { result ≡ find (λ row. bytes_eq row.number.now word.now) rows.now }
{
    rows.iter()
        .copied()
        .find(|row| row.number.as_bytes() == word)
}

/// Returns the row of a code among these.
fn found(rows: &[Explanation], word: &[u8]) -> Option<Explanation>
    ensures known { is_some result ≡ list_any (λ row. bytes_eq row.number.now word.now) rows.now }
    ensures number { IfSome result (λ row. row.number.now ≡ word.now) }
{
    first_named(rows, word)
}

fn session_row(word: &[u8]) -> Option<Explanation>
    ensures known { is_some result ≡ is_among session_numbers word.now }
    ensures number { IfSome result (λ row. row.number.now ≡ word.now) }
{
    found(&SESSION, word)
}

fn assembly_row(word: &[u8]) -> Option<Explanation>
    ensures known { is_some result ≡ is_among assembly_numbers word.now }
    ensures number { IfSome result (λ row. row.number.now ≡ word.now) }
{
    found(&ASSEMBLY, word)
}

fn name_row(word: &[u8]) -> Option<Explanation>
    ensures known { is_some result ≡ is_among name_numbers word.now }
    ensures number { IfSome result (λ row. row.number.now ≡ word.now) }
{
    found(&NAMES, word)
}

fn bytes_row(word: &[u8]) -> Option<Explanation>
    ensures known { is_some result ≡ is_among byte_numbers word.now }
    ensures number { IfSome result (λ row. row.number.now ≡ word.now) }
{
    found(&BYTES, word)
}

fn verifier_row(word: &[u8]) -> Option<Explanation>
    ensures known { is_some result ≡ is_among verifier_numbers word.now }
    ensures number { IfSome result (λ row. row.number.now ≡ word.now) }
{
    found(&VERIFIER, word)
}

fn trap_row(word: &[u8]) -> Option<Explanation>
    ensures known { is_some result ≡ is_among trap_numbers word.now }
    ensures number { IfSome result (λ row. row.number.now ≡ word.now) }
{
    found(&TRAPS, word)
}

/// Returns the row of a code, if it is one.
fn row_of(word: &[u8]) -> Option<Explanation>
    ensures known { is_some result ≡ is_number word.now }
    ensures number { IfSome result (λ row. row.number.now ≡ word.now) }
{
    session_row(word)
        .or(assembly_row(word))
        .or(name_row(word))
        .or(bytes_row(word))
        .or(verifier_row(word))
        .or(trap_row(word))
}

/// Appends a line of an explanation: its name, and its text.
fn put_line(out: &mut Vec<u8>, name: &str, text: &str) -> Result<(), AllocError>
    ensures { OnOk result (out.new.items ≡ out.old.items ++ (name.now ++ (text.now ++ codes "\n"))) }
{
    put(out, name)?;
    put(out, text)?;
    put(out, "\n")
}

/// Appends each code with its meaning, one line each.
fn put_rows(out: &mut Vec<u8>, rows: &[Explanation]) -> Result<(), AllocError> {
    for row in rows {
        put(out, row.number)?;
        put_line(out, ": ", row.meaning)?;
    }
    Ok(())
}

/// Returns all codes with their meanings, one line each.
fn listing(alloc: Global) -> Result<Vec<u8>, AllocError> {
    let mut text = Vec::new(alloc);
    put_rows(&mut text, &SESSION)?;
    put_rows(&mut text, &ASSEMBLY)?;
    put_rows(&mut text, &NAMES)?;
    put_rows(&mut text, &BYTES)?;
    put_rows(&mut text, &VERIFIER)?;
    put_rows(&mut text, &TRAPS)?;
    Ok(text)
}

/// Inserts a 0 between a letter and a single digit, except in the code of a trap.
fn full_number(alloc: Global, word: &[u8]) -> Result<Vec<u8>, AllocError>
    ensures { IfOk result (λ number. number.items ≡ full_number word.now) }
{
    if word.len() == 2 && !word.starts_with(b"C") {
        let mut number = Vec::new(alloc);
        number.extend_from_slice(&word[..1])?;
        number.extend_from_slice(b"0")?;
        number.extend_from_slice(&word[1..])?;
        Ok(number)
    } else {
        word.to_vec(alloc)
    }
}

/// Returns the text of a row, which begins with its code.
fn text_of(alloc: Global, row: &Explanation) -> Result<Vec<u8>, AllocError>
    ensures { IfOk result (λ text. IsExplanation row.now.number.now text.items) }
{
    let mut text = Vec::new(alloc);
    put(&mut text, row.number)?;
    put_line(&mut text, ": ", row.meaning)?;
    put_line(&mut text, "  required: ", row.asked)?;
    put_line(&mut text, "  usual mistake: ", row.mistake)?;
    put_line(&mut text, "  correction: ", row.mending)?;
    Ok(text)
}

/// Returns the explanation of a code, if it is one.
fn row_meaning(alloc: Global, form: Form, number: &[u8]) -> Result<Option<Explained>, AllocError>
    ensures { IfOk result (λ requested. MatchOption requested (is_number number.now ≡ false)
        (λ e. (is_number number.now ≡ true) × (e.form ≡ form) × (e.code.items ≡ number.now) × IsExplanation number.now e.text.items)) }
{
    match row_of(number) {
        Some(row) => {
            let text = text_of(alloc, &row)?;
            let code = number.to_vec(alloc)?;
            Ok(Some(Explained { form, code, text }))
        }
        None => Ok(None),
    }
}

/// Returns the explanation of the code that an argument names, if it names one. Accepts either case, and codes without their 0.
fn word_meaning(alloc: Global, form: Form, word: &[u8]) -> Result<Option<Explained>, AllocError>
    ensures { IfOk result (λ requested. MatchOption requested (is_number (meant word.now) ≡ false)
        (λ e. (is_number (meant word.now) ≡ true) × (e.form ≡ form) × (e.code.items ≡ meant word.now) × IsExplanation (meant word.now) e.text.items)) }
{
    let capitals = word.to_ascii_uppercase(alloc)?;
    let number = full_number(alloc, &capitals)?;
    row_meaning(alloc, form, &number)
}

/// Returns the list of all codes as an explanation.
fn all_meanings(alloc: Global, form: Form) -> Result<Explained, AllocError>
    ensures { IfOk result (λ e. (e.form ≡ form) × (e.code.items ≡ [])) }
{
    let text = listing(alloc)?;
    let code = Vec::new(alloc);
    Ok(Explained { form, code, text })
}

/// Returns the explanation that the argument of `explain` requests, in this form. An empty argument requests the list of all codes. Returns none if it
/// names no code.
pub fn explained_code(
    alloc: Global,
    form: Form,
    word: &str,
) -> Result<Option<Explained>, AllocError>
    ensures { IfOk result (λ requested. MatchOption requested (names_code word.now ≡ false)
        (λ e. (names_code word.now ≡ true) × (e.form ≡ form) × IsMeaningOf word.now e.code.items e.text.items)) }
{
    if word.is_empty() {
        let all = all_meanings(alloc, form)?;
        Ok(Some(all))
    } else {
        word_meaning(alloc, form, word.as_bytes())
    }
}
