//! Makes the commands of their rows.

ghost use Rattle.std.specs.Prelude.{◌≡◌, false, IfOk};
ghost use Rattle.clap.specs.Words.{app_of, rule_of};
ghost use Rattle.clap.specs.declared.Command.TheViews.{out-Command};
ghost use Rattle.tw_cli.specs.reading.Rows.{row_line, row_rule};

use crate::command_rows::{ArgumentForm, ArgumentRow, CommandRow};
use clap::{Arg, ArgAction, Command};
use std::alloc::{AllocError, Global};

/// Makes the argument of a row.
fn argument<'a>(alloc: Global, row: &ArgumentRow<'a>) -> Arg<'a>
    ensures rule { rule_of result ≡ row_rule row.now }
    ensures local { result.global ≡ false }
{
    let bare = Arg::new(alloc, row.name).help(row.help);
    match row.form {
        ArgumentForm::Flag => bare
            .long(row.name)
            .help_heading(row.group)
            .action(ArgAction::SetTrue),
        ArgumentForm::Inputs | ArgumentForm::Trace => bare
            .long(row.name)
            .help_heading(row.group)
            .next_line_help(true)
            .action(ArgAction::SetTrue),
        ArgumentForm::Value => bare.long(row.name).help_heading(row.group).value_name("N"),
        ArgumentForm::ValueOrMain => bare
            .long(row.name)
            .help_heading(row.group)
            .value_name("main|all")
            .num_args(0..=1)
            .default_missing_value("main"),
        ArgumentForm::Position => bare.value_name("CODE"),
        ArgumentForm::Positions => bare.value_name("INPUT").num_args(0..),
    }
}

/// Makes the command of a row.
pub(crate) fn command_of<'a>(alloc: Global, row: &CommandRow<'a>) -> Result<Command<'a>, AllocError>
    ensures app { IfOk result (λ c. app_of c ≡ row_line row.now) }
    ensures local { IfOk result (λ c. (out-Command c).has_globals ≡ false) }
{
    let mut command = Command::new(alloc, row.name)
        .about(row.help.about)
        .override_usage(row.help.usage)
        .after_help(row.help.whole);
    for argument_row in row.arguments {
        command = command.arg(argument(alloc, argument_row))?;
    }
    Ok(command)
}
