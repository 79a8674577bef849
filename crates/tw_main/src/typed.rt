//! Rewrites a command line that people type for a session.

use crate::bare_input::bare_input;
use std::alloc::{AllocError, Global};
use tw_cli::{ArgumentForm, is_option};

/// A command line that is rewritten.
#[derive(Drop)]
pub struct CommandWords {
    /// The arguments after the command.
    pub others: Vec<String>,
    /// Which of them names the program's file, if one does.
    pub program: Option<usize>,
}

impl CommandWords {
    /// Returns the name of the program's file, if an argument is one.
    pub fn program_path(&self) -> Option<&str> {
        let path = self.others.get(self.program?)?;
        Some(path.as_str())
    }
}

/// Returns whether a file may follow an option.
pub fn takes_file(option: &str) -> bool {
    is_option(ArgumentForm::Inputs, option) || is_option(ArgumentForm::Trace, option)
}

/// Returns whether a word is the value of the option before it.
fn is_value(option: &str, word: &str) -> bool {
    (takes_file(option) && tw_files::may_name(word.as_bytes()))
        || is_option(ArgumentForm::Value, option)
        || (is_option(ArgumentForm::ValueOrMain, option) && (word == "main" || word == "all"))
}

/// Returns whether inputs of a program may follow a command.
pub fn takes_inputs(command: &str) -> bool {
    command == "run" || command == "replay" || command == "picture"
}

/// Returns an option and the file after its `=`, if one is named there.
fn parted(word: &str) -> Option<(&str, &str)> {
    let (option, file) = word.split_once('=')?;
    if takes_file(option) && !file.is_empty() {
        Some((option, file))
    } else {
        None
    }
}

/// Arguments that are read one after the other.
#[derive(Drop)]
struct Reading<'a> {
    alloc: Global,
    command: &'a str,
    /// The argument before the next one.
    before: &'a str,
    /// Whether the argument `--` has come, after which none is an option.
    has_dashes: bool,
    made: CommandWords,
}

impl<'a> Reading<'a> {
    /// Adds a word.
    fn put(&mut self, word: &str) -> Result<(), AllocError> {
        let copy = String::from_str(self.alloc, word)?;
        self.made.others.push(copy)?;
        Ok(())
    }

    /// Adds a word that may name the program's file.
    fn put_operand(&mut self, word: &str) -> Result<(), AllocError> {
        if self.made.program.is_none() && tw_files::may_name(word.as_bytes()) {
            self.made.program = Some(self.made.others.len());
        }
        self.put(word)
    }

    /// Returns whether a bare input may come next: a file that isn't standard input has been named.
    fn takes_bare(&self) -> bool {
        match self.made.program_path() {
            Some(path) => takes_inputs(self.command) && path != "-",
            None => false,
        }
    }

    /// Takes a word that is no option and no value of one.
    fn take_operand(&mut self, word: &str) -> Result<(), AllocError> {
        if self.takes_bare()
            && let Some(input) = bare_input(self.alloc, word)?
        {
            return self.put(input.as_str());
        }
        if self.has_dashes && word.len() > 1 && word.starts_with('-') {
            let path = format!(in self.alloc; "./{word}")?;
            return self.put_operand(path.as_str());
        }
        self.put_operand(word)
    }

    /// Takes the next word.
    fn take(&mut self, word: &'a str) -> Result<(), AllocError> {
        let option = self.before;
        self.before = word;
        if self.has_dashes {
            return self.take_operand(word);
        }
        if word == "--" {
            self.has_dashes = true;
            return Ok(());
        }
        if let Some((option, file)) = parted(word) {
            self.before = "";
            self.put(option)?;
            return self.put(file);
        }
        if is_value(option, word) {
            self.before = "";
            return self.put(word);
        }
        self.take_operand(word)
    }
}

/// Returns the arguments after a command as a session takes them: with the prefixes of inputs, the files of options as words of their own, and no
/// `--`.
pub fn rewritten<'a>(
    alloc: Global,
    command: &'a str,
    others: &'a [String],
) -> Result<CommandWords, AllocError> {
    let mut reading = Reading {
        alloc,
        command,
        before: "",
        has_dashes: false,
        made: CommandWords {
            others: Vec::new(alloc),
            program: None,
        },
    };
    for word in others {
        reading.take(word.as_str())?;
    }
    Ok(reading.made)
}
