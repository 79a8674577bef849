//! Makes the order of the arguments.

ghost use Rattle.std.specs.Prelude.{◌≡◌, IfErr, IfOk, List, map, string_bytes};
ghost use Rattle.tw_cli.specs.Explanations.{number_word};
ghost use Rattle.clap.specs.Words.{Row, found_of, rows_of};
ghost use Rattle.tw_inputs.specs.InputWords.{AreEncoded};
ghost use Rattle.tw_inputs.specs.WordErrors.{IsInputReason};
ghost use Rattle.tw_cli.specs.Order.{AreListed, Gives, GivesByWords, HasReason, given_words};

use crate::command::{NoOrder, command};
use crate::complaint::{Complaint, refused_line};
use crate::explanations::explained_code;
use crate::numbers::{Numbers, numbers_given};
use crate::options::{
    assembly_given, check_given, disassembly_given, form_given, has_words, picture_answer,
    replay_answer, run_given, source_given,
};
use crate::page::with_files;
use clap::error::ErrorKind;
use clap::{ArgMatches, Error};
use std::alloc::Global;
use tw_inputs::{WordError, inputs_of};
use tw_order::{Answer, EachOrder, Form, Order, RunInputs, RunOptions};
use tw_types::{Input, Items, Layout};

/// The lines for input arguments beside `--inputs`, for a code that there isn't, and for no command.
const INPUTS_TWICE: &str = "error: with --inputs all inputs are read, and none is an argument\n";

const NO_CODE: &str = "error: there is no such code; expected one such as A02, V04 or C5\n";

const NO_COMMAND: &str = "error: there is no command\n";

/// Returns the help or the version that was requested.
fn help_of(alloc: Global, error: &Error) -> NoOrder
    ensures { (rows : List Row) → HasReason rows result }
{
    let page = match error.to_string(alloc) {
        Ok(text) => with_files(alloc, text.as_str()),
        Err(_) => return NoOrder::NoMemory,
    };
    match page {
        Ok(page) => NoOrder::Help(page),
        Err(_) => NoOrder::NoMemory,
    }
}

/// Returns the reason that clap's error is.
fn reason_of(alloc: Global, words: &[String], error: &Error) -> NoOrder
    ensures { (rows : List Row) → HasReason rows result }
{
    let made = match error.kind() {
        ErrorKind::OutOfMemory => return NoOrder::NoMemory,
        ErrorKind::DisplayHelp | ErrorKind::DisplayVersion => {
            return help_of(alloc, error);
        }
        _ => refused_line(alloc, words, error),
    };
    match made {
        Ok(line) => NoOrder::Refused(Complaint::Made(line)),
        Err(_) => NoOrder::NoMemory,
    }
}

/// Returns the inputs that the input arguments encode.
fn inputs_in_words(alloc: Global, matches: &ArgMatches<'_>) -> Result<Items<Input>, WordError>
    ensures spelled { IfOk result (λ inputs. AreEncoded inputs (given_words (rows_of (found_of matches.now)))) }
    ensures refused { IfErr result (IsInputReason (given_words (rows_of (found_of matches.now)))) }
{
    match matches.get_strs("input") {
        Some(words) => inputs_of(alloc, words),
        None => inputs_of(alloc, &[]),
    }
}

/// Returns the inputs that the input arguments encode. Returns none if `--inputs` says that they are part of what is read.
fn inputs_given(alloc: Global, matches: &ArgMatches<'_>) -> Result<Option<Items<Input>>, NoOrder>
    ensures taken { IfOk result (AreListed (rows_of (found_of matches.now))) }
    ensures refused { IfErr result (HasReason (rows_of (found_of matches.now))) }
{
    if matches.get_flag("inputs") {
        return if has_words(matches) {
            Err(NoOrder::Refused(Complaint::Fixed(INPUTS_TWICE)))
        } else {
            Ok(None)
        };
    }
    match inputs_in_words(alloc, matches) {
        Ok(inputs) => Ok(Some(inputs)),
        Err(WordError::Refused(number, line)) => Err(NoOrder::InputWord(number, line)),
        Err(WordError::NoMemory) => Err(NoOrder::NoMemory),
    }
}

/// Returns the order of one run.
fn single_order(
    alloc: Global,
    matches: &ArgMatches<'_>,
    options: RunOptions,
) -> Result<Order, NoOrder>
    ensures { Gives (rows_of (found_of matches.now)) result }
{
    let source = source_given(matches);
    if matches.get_flag("inputs-json") {
        return Ok(Order::Run(source, options, RunInputs::Json));
    }
    match inputs_given(alloc, matches) {
        Ok(Some(inputs)) => Ok(Order::Run(source, options, RunInputs::Given(inputs))),
        Ok(None) => Ok(Order::Run(source, options, RunInputs::Words)),
        Err(why) => Err(why),
    }
}

/// Returns the order to run each line of inputs.
fn each_order(options: RunOptions, jobs: usize) -> EachOrder {
    EachOrder {
        layout: options.layout,
        limit: options.limit,
        jobs,
        seconds: options.seconds,
        caps: options.caps,
    }
}

/// Returns the order to run, from what clap found after `run`.
fn run_order(alloc: Global, matches: &ArgMatches<'_>, numbers: &Numbers) -> Result<Order, NoOrder>
    ensures { Gives (rows_of (found_of matches.now)) result }
{
    match run_given(matches, numbers) {
        Ok(options) if matches.get_flag("each") => Ok(Order::Each(
            source_given(matches),
            each_order(options, numbers.jobs),
        )),
        Ok(options) => single_order(alloc, matches, options),
        Err(line) => Err(NoOrder::Refused(Complaint::Fixed(line))),
    }
}

/// Returns the order to replay a trace and write this answer, from what clap found after the command.
fn replay_order(
    alloc: Global,
    answer: Result<Answer, &'static str>,
    layout: Layout,
    matches: &ArgMatches<'_>,
) -> Result<Order, NoOrder>
    ensures { Gives (rows_of (found_of matches.now)) result }
{
    let answer = match answer {
        Ok(answer) => answer,
        Err(line) => return Err(NoOrder::Refused(Complaint::Fixed(line))),
    };
    match inputs_given(alloc, matches) {
        Ok(inputs) => Ok(Order::Replay(source_given(matches), answer, layout, inputs)),
        Err(why) => Err(why),
    }
}

/// Returns the order of `check`, from what clap found after it.
fn check_order(matches: &ArgMatches<'_>, numbers: &Numbers) -> Result<Order, NoOrder>
    ensures { Gives (rows_of (found_of matches.now)) result }
{
    match check_given(matches, numbers) {
        Ok(order) => Ok(Order::Check(source_given(matches), order)),
        Err(line) => Err(NoOrder::Refused(Complaint::Fixed(line))),
    }
}

/// Returns the explanation of a code, or an error.
fn explanation_of(alloc: Global, form: Form, word: &str) -> NoOrder
    ensures { (rows : List Row) → number_word rows ≡ word.now → HasReason rows result }
{
    match explained_code(alloc, form, word) {
        Ok(Some(explained)) => NoOrder::Explanation(explained),
        Ok(None) => NoOrder::Refused(Complaint::Fixed(NO_CODE)),
        Err(_) => NoOrder::NoMemory,
    }
}

/// Returns the explanation of the code after `explain`, or an error.
fn explanation_given(alloc: Global, matches: &ArgMatches<'_>) -> NoOrder
    ensures { HasReason (rows_of (found_of matches.now)) result }
{
    let form = form_given(matches);
    match matches.get_str("number") {
        Some(word) => explanation_of(alloc, form, word),
        None => explanation_of(alloc, form, ""),
    }
}

/// Returns the order of a command of this name, from what clap found after it.
fn order_of(alloc: Global, name: &str, matches: &ArgMatches<'_>) -> Result<Order, NoOrder>
    ensures { Gives (rows_of (found_of matches.now)) result }
{
    let numbers = match numbers_given(matches) {
        Ok(numbers) => numbers,
        Err(line) => return Err(NoOrder::Refused(Complaint::Fixed(line))),
    };
    match name {
        "run" => run_order(alloc, matches, &numbers),
        "replay" => replay_order(alloc, replay_answer(matches), numbers.layout, matches),
        "picture" => replay_order(alloc, picture_answer(&numbers), numbers.layout, matches),
        "asm" => Ok(Order::Assemble(assembly_given(matches))),
        "disasm" => {
            let source = source_given(matches);
            Ok(Order::Disassemble(source, disassembly_given(matches)))
        }
        "explain" => Err(explanation_given(alloc, matches)),
        _ => check_order(matches, &numbers),
    }
}

/// Reads the order from the program's arguments, without its own name.
///
/// If several things are wrong, clap's error comes first, then an option without a number in its range, then options that exclude each other, then the
/// first input argument that encodes no input. No clause says which arguments are rejected, what an option means, what a help text is, nor that an
/// allocation failed if that is the error.
pub fn read_order(alloc: Global, words: &[String]) -> Result<Order, NoOrder>
    ensures { GivesByWords (map string_bytes words.now) result }
{
    let Ok(line) = command(alloc) else {
        return Err(NoOrder::NoMemory);
    };
    match line.try_get_matches_from(words) {
        Ok(matches) => match matches.subcommand() {
            Some((name, given)) => order_of(alloc, name, given),
            None => Err(NoOrder::Refused(Complaint::Fixed(NO_COMMAND))),
        },
        Err(error) => Err(reason_of(alloc, words, &error)),
    }
}
