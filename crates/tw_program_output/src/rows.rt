//! Rows of values, printed as text and as JSON.

ghost use Rattle.std.specs.Prelude.{◌≡◌, ◌++◌, codes, map};
ghost use Rattle.tw_program_output.specs.Rows.{cell_of, row_text, value_of, value_text};
ghost use Rattle.tw_symbols.specs.Symbols.{bracketed};
ghost use Rattle.tw_writer.specs.Appended.{IsAppended};

use std::alloc::Global;
use tw_json_output::ObjectWriter;
use tw_writer::Writer;

/// A value of a row.
#[derive(Clone, Copy)]
pub enum Shown<'a> {
    Number(u64),
    Word(&'a str),
    /// A name, which is in brackets in a text; an empty one is left out.
    Name(&'a [u8]),
}

/// A value, its key in JSON, and the words before it in a text.
#[derive(Clone, Copy)]
pub struct Cell<'a> {
    pub key: &'a str,
    pub before: &'a str,
    pub value: Shown<'a>,
}

impl<'a> Cell<'a> {
    /// Makes a cell.
    pub fn new(key: &'a str, before: &'a str, value: Shown<'a>) -> Cell<'a>
        ensures { cell_of result ≡ (before.entry.now, value_of value.entry) }
    {
        Cell { key, before, value }
    }
}

// ---- text

/// Adds a name in brackets, if it isn't empty.
fn put_name(out: &mut Writer, name: &[u8])
    ensures { IsAppended out.old out.new (bracketed name.now) }
{
    match name {
        [] => {}
        [_, ..] => {
            out.put(" (");
            out.put_bytes(name);
            out.put(")");
        }
    }
}

/// Adds a value.
fn put_value(out: &mut Writer, value: Shown<'_>)
    ensures { IsAppended out.old out.new (value_text (value_of value.entry)) }
{
    match value {
        Shown::Number(number) => out.put_decimal(number as usize),
        Shown::Word(word) => out.put(word),
        Shown::Name(name) => put_name(out, name),
    }
}

/// Adds a value after the words before it.
fn put_cell(out: &mut Writer, cell: Cell<'_>)
    ensures { IsAppended out.old out.new ((cell_of cell.entry).0 ++ value_text (cell_of cell.entry).1) }
{
    out.put(cell.before);
    put_value(out, cell.value);
}

/// Adds the values of a row, one after the other.
pub(crate) fn put_row(out: &mut Writer, cells: &[Cell<'_>])
    ensures { IsAppended out.old out.new (row_text (map cell_of cells.now)) }
{
    for cell in cells {
        put_cell(out, *cell);
    }
}

/// Adds the line of a row.
pub(crate) fn put_line(out: &mut Writer, cells: &[Cell<'_>])
    ensures { IsAppended out.old out.new (row_text (map cell_of cells.now) ++ codes "\n") }
{
    put_row(out, cells);
    out.put("\n");
}

/// Adds each value of a row between these texts.
pub(crate) fn put_each(out: &mut Writer, head: &str, cells: &[Cell<'_>], tail: &str) {
    for cell in cells {
        out.put(head);
        put_cell(out, *cell);
        out.put(tail);
    }
}

// ---- JSON

/// Adds the members of a row.
pub(crate) fn put_members(object: &mut ObjectWriter, cells: &[Cell<'_>]) {
    for cell in cells {
        match cell.value {
            Shown::Number(number) => object.put_number(cell.key, number),
            Shown::Word(word) => object.put_word(cell.key, word),
            Shown::Name([]) => {}
            Shown::Name(name) => object.put_bytes(cell.key, name),
        }
    }
}

/// Returns the object of a row.
pub(crate) fn row_object(alloc: Global, cells: &[Cell<'_>]) -> ObjectWriter {
    let mut object = ObjectWriter::new(alloc);
    put_members(&mut object, cells);
    object
}
