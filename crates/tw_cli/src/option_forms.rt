//! Finds the form of an option in the rows of all commands.

ghost use Rattle.std.specs.Prelude.{◌≡◌, ◌&&◌};
ghost use Rattle.std.specs.List.{list_any};
ghost use Rattle.std.specs.Str.{bytes_eq};
ghost use Rattle.tw_cli.specs.Rows.{is_option as is_option_is, names_option as names_option_is, reads_program as reads_program_is, same_form};

use crate::command_rows::{ArgumentForm, ArgumentRow, COMMANDS, CommandRow};

impl ArgumentForm {
    fn is(self, other: ArgumentForm) -> bool
        ensures { result ≡ same_form self other }
    {
        match self {
            ArgumentForm::Flag => matches!(other, ArgumentForm::Flag),
            ArgumentForm::Value => matches!(other, ArgumentForm::Value),
            ArgumentForm::ValueOrMain => matches!(other, ArgumentForm::ValueOrMain),
            ArgumentForm::Inputs => matches!(other, ArgumentForm::Inputs),
            ArgumentForm::Trace => matches!(other, ArgumentForm::Trace),
            ArgumentForm::Position => matches!(other, ArgumentForm::Position),
            ArgumentForm::Positions => matches!(other, ArgumentForm::Positions),
        }
    }
}

/// Returns whether a word is the option of this name.
fn names_option(word: &[u8], name: &[u8]) -> bool
    ensures { result ≡ names_option_is word.now name.now }
{
    match word {
        [b'-', b'-', others @ ..] => others == name,
        _ => false,
    }
}

fn is_row(row: &ArgumentRow<'_>, form: ArgumentForm, word: &str) -> bool
    ensures { result ≡ (same_form row.now.form form && names_option_is word.now row.now.name.now) }
{
    row.form.is(form) && names_option(word.as_bytes(), row.name.as_bytes())
}

fn has_option(command: &CommandRow<'_>, form: ArgumentForm, word: &str) -> bool
    ensures { result ≡ list_any (λ row. same_form row.form form && names_option_is word.now row.name.now) command.now.arguments.now }
{
    command.arguments.iter().any(|row| is_row(row, form, word))
}

fn is_among(commands: &[CommandRow<'_>], form: ArgumentForm, word: &str) -> bool
    ensures { result ≡ list_any (λ c. list_any (λ row. same_form row.form form && names_option_is word.now row.name.now) c.arguments.now) commands.now }
{
    commands
        .iter()
        .any(|command| has_option(command, form, word))
}

/// Returns whether a word is an option of this form, of any command.
pub fn is_option(form: ArgumentForm, word: &str) -> bool
    ensures { result ≡ is_option_is form word.now }
{
    is_among(&COMMANDS, form, word)
}

fn reads(command: &CommandRow<'_>, name: &str) -> bool
    ensures { result ≡ (command.now.reads_program && bytes_eq command.now.name.now name.now) }
{
    command.reads_program && command.name == name
}

fn is_read_by(commands: &[CommandRow<'_>], name: &str) -> bool
    ensures { result ≡ list_any (λ c. c.reads_program && bytes_eq c.name.now name.now) commands.now }
{
    commands.iter().any(|command| reads(command, name))
}

/// Returns whether a command reads a program.
pub fn reads_program(name: &str) -> bool
    ensures { result ≡ reads_program_is name.now }
{
    is_read_by(&COMMANDS, name)
}
