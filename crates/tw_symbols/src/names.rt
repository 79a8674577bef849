//! The names that are known at a line.

ghost use Rattle.std.specs.Prelude.{◌≡◌, ◌==◌, ◌||◌, ◌∷◌, [], ◌++◌, ◌<◌, None, Some, true, OnOk, nat_lt, slice_get};
ghost use Rattle.tw_lexer.specs.Digits.{all_digits, are_digits};
ghost use Rattle.std.specs.Char.{digit_value};
ghost use Rattle.tw_symbols.specs.Answers.{lists_entry};
ghost use Rattle.tw_symbols.specs.Meanings.{above, is_name, is_register_word, known, may_name, meaning, no_names, with_constant, with_hidden, with_listed, with_register, is_listed, lists};
ghost use Rattle.tw_symbols.specs.declared.meaning.Binding.TheVariants.{Constant};
ghost use Rattle.tw_symbols.specs.Seen.{seen_names, seen_procedures, seen_table, texts};

use crate::hash::NameHash;
use crate::meaning::{Bank, Binding, Origin, is_bank, is_origin};
use crate::procedures::Procedures;
use crate::rejection::{NameNo, Rejection};
use indexmap::IndexMap;
use std::alloc::{AllocError, Global};

/// Names and their meanings.
pub type Table<'a> = IndexMap<&'a [u8], Binding, NameHash>;

/// The longest name, in bytes.
const MAX_NAME: usize = 64;

/// The number of registers in a bank.
pub const REGISTERS: usize = 16;

/// The names that the lines so far have defined.
#[derive(Drop)]
pub struct Names<'a> {
    pub constants: Table<'a>,
    /// The registers of the procedure so far.
    pub registers: Table<'a>,
    /// The types that its line `regs` leaves out.
    pub types: Vec<&'a [u8]>,
    /// One more than the highest right register that has a name.
    pub rights: usize,
    /// How many value registers the parameters take.
    pub values: usize,
    /// The first hidden register, after those that the line `regs` lists; none if that lists too few for the parameters.
    pub first: Option<usize>,
    /// The types of the hidden registers in the expanded line `regs`.
    pub hidden: Vec<&'a [u8]>,
    /// The literals of the first hidden registers, as they are written.
    pub literals: Vec<&'a [u8]>,
    /// How many hidden registers are read so far.
    pub read: usize,
    /// Whether a word has meant a register after those that the line `regs` lists.
    pub has_unlisted: bool,
}

impl<'a> Names<'a> {
    /// Makes tables of names without any, with the hash function of a text's names.
    pub fn new(alloc: Global, hash: NameHash) -> Names<'a>
        ensures { seen_names result ≡ no_names }
    {
        Names {
            constants: IndexMap::with_hasher(alloc, hash),
            registers: IndexMap::with_hasher(alloc, hash),
            types: Vec::new(alloc),
            rights: 0,
            values: 0,
            first: None,
            hidden: Vec::new(alloc),
            literals: Vec::new(alloc),
            read: 0,
            has_unlisted: false,
        }
    }

    /// Notes a line `regs` that lists so many registers, and in the expansion hidden ones of these types.
    pub fn list_hidden(&mut self, count: usize, hidden: &[&'a [u8]]) -> Result<(), AllocError>
        ensures { OnOk result (seen_names self.new ≡ with_hidden (seen_names self.old) count (texts hidden.now)) }
    {
        self.first = if count < self.values {
            None
        } else {
            Some(count)
        };
        self.literals.clear();
        self.read = 0;
        self.has_unlisted = false;
        self.hidden.clear();
        self.hidden.extend_from_slice(hidden)
    }
}

/// Returns whether a byte of a word is a decimal digit.
fn is_digit(byte: u8) -> bool
    ensures { result ≡ nat_lt (digit_value byte) 10 }
{
    match byte {
        b'0'..=b'9' => true,
        _ => false,
    }
}

/// Returns whether all bytes of a word are decimal digits; an empty one passes.
fn all_digits(text: &[u8]) -> bool
    ensures { result ≡ all_digits text.now }
{
    for byte in text {
        if !is_digit(*byte) {
            return false;
        }
    }
    true
}

/// Returns whether the text after a register's letter is one or more decimal digits.
fn are_digits(text: &[u8]) -> bool
    ensures { result ≡ are_digits text.now }
{
    match text {
        [] => false,
        [_, ..] => all_digits(text),
    }
}

/// Returns whether a byte is `v` or `d`, the letters of a register's word.
fn is_bank_letter(byte: u8) -> bool
    ensures { result ≡ (byte == 118) || (byte == 100) }
{
    byte == b'v' || byte == b'd'
}

/// Returns whether a word is `v` or `d` and digits.
fn is_register_word(word: &[u8]) -> bool
    ensures { result ≡ is_register_word word.now }
{
    match word {
        [first, rest @ ..] if is_bank_letter(*first) => are_digits(rest),
        _ => false,
    }
}

/// Returns whether a word may be a name: it has the form of a label's name, at most 64 bytes, and no meaning of its own, as `v1` and `any` have.
pub fn is_name(word: &[u8]) -> bool
    ensures { result ≡ is_name word.now }
{
    if !tw_lexer::is_name(word) {
        false
    } else if word.len() > MAX_NAME {
        false
    } else if is_register_word(word) {
        false
    } else {
        word != b"any".as_slice()
    }
}

/// Returns the meaning of a name in a table of names.
pub fn meaning(table: &Table<'_>, name: &[u8]) -> Option<Binding>
    ensures { result ≡ meaning name.now (seen_table table.now.entries) }
{
    match table.get(name) {
        Some(binding) => Some(*binding),
        None => None,
    }
}

/// Returns the meaning that a name has at a line: a register, a constant or a procedure.
pub fn known(procedures: &Procedures<'_>, names: &Names<'_>, name: &[u8]) -> Option<Binding>
    ensures { result ≡ known (seen_procedures procedures.now) (seen_names names.now) name.now }
{
    match meaning(&names.registers, name) {
        Some(binding) => Some(binding),
        None => match meaning(&names.constants, name) {
            Some(binding) => Some(binding),
            None => meaning(&procedures.table, name),
        },
    }
}

/// Checks that a word may get a meaning as a name: it has its form, and no meaning yet.
pub fn may_name<'a>(
    procedures: &Procedures<'_>,
    names: &Names<'_>,
    name: &'a [u8],
) -> Result<(), Rejection<'a>>
    ensures { OnOk result (may_name (seen_procedures procedures.now) (seen_names names.now) name.now ≡ true) }
{
    if !is_name(name) {
        return Err(Rejection::Flawed(NameNo::NoName, name));
    }
    match known(procedures, names, name) {
        Some(binding) => Err(Rejection::Flawed(NameNo::Taken(binding), name)),
        None => Ok(()),
    }
}

/// Adds a name and its meaning to a table of names that doesn't have it.
pub fn put_name<'a>(
    table: &mut Table<'a>,
    name: &'a [u8],
    binding: Binding,
) -> Result<(), AllocError>
    requires { meaning name.now (seen_table table.old.entries) ≡ None }
    ensures { OnOk result (seen_table table.new.entries ≡ seen_table table.old.entries ++ (name.now, binding) ∷ []) }
{
    table.insert(name, binding)?;
    Ok(())
}

/// Adds the name of a constant to the names that are known at a line.
pub fn add_constant<'a>(
    procedures: &Procedures<'_>,
    names: &mut Names<'a>,
    name: &'a [u8],
    number: i64,
) -> Result<(), Rejection<'a>>
    ensures { OnOk result (with_constant (seen_procedures procedures.now) (seen_names names.old) name.now (Constant number) ≡ Some (seen_names names.new)) }
{
    may_name(procedures, names, name)?;
    put_name(&mut names.constants, name, Binding::Constant(number))?;
    Ok(())
}

/// Returns the number of named right registers after this one got a name: at least one more than its number.
fn above(bank: Bank, number: usize, rights: usize) -> usize
    requires { number < 16 }
    ensures { result ≡ above bank number rights }
{
    match bank {
        Bank::Value => rights,
        Bank::Right => { if number < rights { rights } else { number + 1 } }
    }
}

/// Adds the name of a register to the names of its procedure.
pub fn add_register<'a>(
    procedures: &Procedures<'_>,
    names: &mut Names<'a>,
    name: &'a [u8],
    bank: Bank,
    number: usize,
    origin: Origin,
) -> Result<(), Rejection<'a>>
    ensures { OnOk result (with_register (seen_procedures procedures.now) (seen_names names.old) name.now bank number origin ≡ Some (seen_names names.new)) }
{
    may_name(procedures, names, name)?;
    if number >= REGISTERS {
        return Err(Rejection::Flawed(NameNo::Limit, name));
    }
    put_name(
        &mut names.registers,
        name,
        Binding::Register(bank, number, origin),
    )?;
    names.rights = above(bank, number, names.rights);
    Ok(())
}

/// Returns whether a name's meaning is this register, listed or made by that name.
fn lists(bank: Bank, number: usize, binding: Binding) -> bool
    ensures { result ≡ lists bank number binding }
{
    match binding {
        Binding::Register(other, place, origin) => {
            is_bank(bank, other) && number == place && is_origin(origin, Origin::Listed)
        }
        _ => false,
    }
}

/// Returns whether the entry at an index names this register, which was listed or made by that name.
fn lists_at(table: &Table<'_>, index: usize, bank: Bank, number: usize) -> bool
    ensures { result ≡ lists_entry bank number (slice_get (seen_table table.now.entries) index) }
{
    match table.get_index(index) {
        Some((_, binding)) => lists(bank, number, *binding),
        None => false,
    }
}

/// Returns whether a register has a name by which it was listed or made.
fn is_listed(table: &Table<'_>, bank: Bank, number: usize) -> bool
    ensures { result ≡ is_listed bank number (seen_table table.now.entries) }
{
    for index in 0..table.len() {
        if lists_at(table, index, bank, number) {
            return true;
        }
    }
    false
}

/// Adds the name of a register, unless it has been listed or made by another name.
pub fn add_listed<'a>(
    procedures: &Procedures<'_>,
    names: &mut Names<'a>,
    name: &'a [u8],
    bank: Bank,
    number: usize,
) -> Result<(), Rejection<'a>>
    ensures { OnOk result (with_listed (seen_procedures procedures.now) (seen_names names.old) name.now bank number ≡ Some (seen_names names.new)) }
{
    if is_listed(&names.registers, bank, number) {
        return Err(Rejection::Flawed(NameNo::Listed, name));
    }
    add_register(procedures, names, name, bank, number, Origin::Listed)
}
