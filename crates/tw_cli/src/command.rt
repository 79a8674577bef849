//! The commands, and why arguments give no order.

ghost use Rattle.std.specs.Prelude.{◌≡◌, false, IfOk};
ghost use Rattle.std.specs.List.{fold};
ghost use Rattle.clap.specs.Words.{App, app_of, with_subcommand};
ghost use Rattle.clap.specs.declared.Command.TheViews.{out-Command};
ghost use Rattle.tw_cli.specs.Rows.{bare_line, command_line};
ghost use Rattle.tw_cli.specs.reading.Rows.{with_row};

use crate::arguments::command_of;
use crate::command_rows::{COMMANDS, CommandRow};
use crate::complaint::Complaint;
use crate::explanations::Explained;
use crate::help::{ABOUT, VERSION};
use clap::Command;
use std::alloc::{AllocError, Global};

/// The reason why the arguments give no order.
#[derive(Drop)]
pub enum NoOrder {
    /// They request this help, or the version.
    Help(String),
    /// No command of `tw` accepts them, an option has no number in its range, or options exclude each other. The line says why.
    Refused(Complaint),
    /// The input argument with this number is the first that encodes no input. Input arguments count from 1. The line says why. All other arguments
    /// are accepted.
    InputWord(usize, Vec<u8>),
    /// They request this explanation of a code.
    Explanation(Explained),
    /// An allocation failed.
    NoMemory,
}

/// Makes the program without its commands.
fn bare_command<'a>(alloc: Global) -> Result<Command<'a>, AllocError>
    ensures { IfOk result (λ c. app_of c ≡ bare_line) }
{
    let bare = Command::new(alloc, "tw")
        .about(ABOUT)
        .version(VERSION)
        .no_binary_name(true)
        .subcommand_required(true);
    let named = bare.bin_name("tw")?;
    Ok(named)
}

/// Adds a command to the program, unless making it failed.
fn joined<'a>(
    line: Command<'a>,
    added: Result<Command<'a>, AllocError>,
) -> Result<Command<'a>, AllocError>
    requires { IfOk added (λ c. (out-Command c).has_globals ≡ false) }
    ensures { IfOk result (λ c. (app : App) → IfOk added.entry (λ s. app_of s ≡ app) → app_of c ≡ with_subcommand (app_of line.entry) app.top) }
{
    match added {
        Ok(added) => line.subcommand(added),
        Err(error) => Err(error),
    }
}

/// Makes the program with the commands of these rows.
fn line_of<'a>(alloc: Global, rows: &[CommandRow<'a>]) -> Result<Command<'a>, AllocError>
    ensures { IfOk result (λ c. app_of c ≡ fold with_row bare_line rows.now) }
{
    let bare = bare_command(alloc)?;
    let mut line = bare;
    for row in rows {
        line = joined(line, command_of(alloc, row))?;
    }
    Ok(line)
}

/// Makes the whole command line.
pub(crate) fn command<'a>(alloc: Global) -> Result<Command<'a>, AllocError>
    ensures { IfOk result (λ c. app_of c ≡ command_line) }
{
    line_of(alloc, &COMMANDS)
}
