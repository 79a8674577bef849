//! Finds the arguments that name files.

ghost use Rattle.std.specs.Prelude.{◌≡◌, IfOk, List, ℕ, map, string_bytes};
ghost use Rattle.std.specs.Option.{option_map};
ghost use Rattle.tw_files.specs.Naming.{after_word, is_input as is_input_is, is_value as is_value_is, may_name as may_name_is, naming, naming_of, role};
ghost use Rattle.tw_files.specs.Seen.{seen};

use std::alloc::{AllocError, Global};
use tw_cli::{ArgumentForm, is_option};

/// The role of an argument.
#[derive(Clone, Copy)]
pub enum Role {
    /// It names the file of the program.
    Program,
    /// It names the file of inputs.
    Inputs,
    /// It names the file of the trace.
    Events,
    /// It names no file.
    Other,
}

/// The arguments after a command, as far as they were read.
#[derive(Drop)]
pub struct Naming<'a> {
    /// The last argument.
    pub before: &'a str,
    /// The arguments that name no file.
    pub others: Vec<String>,
    /// The file of the program.
    pub program: Option<&'a str>,
    /// The file of inputs.
    pub inputs: Option<&'a str>,
    /// The file of the trace.
    pub events: Option<&'a str>,
}

/// Returns whether an argument begins like a word of an input, so that it names no file.
fn is_input(word: &[u8]) -> bool
    ensures { result ≡ is_input_is word.now }
{
    word.starts_with(b"int:")
        || word.starts_with(b"ints:")
        || word.starts_with(b"text:")
        || word.starts_with(b"texts:")
        || word.starts_with(b"tints:")
        || word.starts_with(b"ttexts:")
}

/// Returns whether an argument may name a file: it is no option, and no word of an input.
pub fn may_name(word: &[u8]) -> bool
    ensures { result ≡ may_name_is word.now }
{
    match word {
        [] => false,
        [b'-', others @ ..] => others.is_empty(),
        _ => !is_input(word),
    }
}

/// Returns whether an argument is the value of the option before it, so that it names no file.
fn is_value(option: &str, word: &str) -> bool
    ensures { result ≡ is_value_is option.now word.now }
{
    is_option(ArgumentForm::Value, option)
        || (is_option(ArgumentForm::ValueOrMain, option) && (word == "main" || word == "all"))
}

impl<'a> Naming<'a> {
    /// Returns the role of the next argument: which file it names, if any.
    fn role_of(&self, word: &str) -> Role
        ensures { result ≡ role (seen self.now) word.now }
    {
        if !may_name(word.as_bytes()) {
            Role::Other
        } else if is_option(ArgumentForm::Inputs, self.before) && self.inputs.is_none() {
            Role::Inputs
        } else if is_option(ArgumentForm::Trace, self.before) && self.events.is_none() {
            Role::Events
        } else if self.program.is_some() || is_value(self.before, word) {
            Role::Other
        } else {
            Role::Program
        }
    }
}

/// Takes the next argument: as the name of a file, or among those that name none.
fn take_word<'a>(mut named: Naming<'a>, word: &'a String) -> Result<Naming<'a>, AllocError>
    ensures { IfOk result (λ after. seen after ≡ after_word (seen named.entry) (string_bytes word.entry.now)) }
{
    let role = named.role_of(word.as_str());
    named.before = word.as_str();
    match role {
        Role::Program => named.program = Some(word.as_str()),
        Role::Inputs => named.inputs = Some(word.as_str()),
        Role::Events => named.events = Some(word.as_str()),
        Role::Other => {
            let copy = word.clone()?;
            named.others.push(copy)?;
        }
    }
    Ok(named)
}

/// Returns which files the arguments after a command name, and the other arguments.
pub fn naming_of<'a>(alloc: Global, words: &'a [String]) -> Result<Naming<'a>, AllocError>
    ensures { IfOk result (λ named. seen named ≡ naming_of (map string_bytes words.entry.now)) }
{
    let mut named = Naming {
        before: "",
        others: Vec::new(alloc),
        program: None,
        inputs: None,
        events: None,
    };
    for word in words {
        named = take_word(named, word)?;
    }
    Ok(named)
}
