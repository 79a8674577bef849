//! Replies as JSON.

ghost use Rattle.std.specs.Prelude.{◌≡◌, IfOk, string_bytes};
ghost use Rattle.tw_json_output.specs.Lines.{IsJsonLine};
ghost use Rattle.tw_source.specs.Reply.{reply};
ghost use Rattle.tw_session.specs.Json.{IsExplanation, IsInForm, assembled_as, checked_as, disassembled_as, in_json, is_error, rendering_of, replayed_as, run_as_json};

use std::alloc::{AllocError, Global};
use tw_cli::Explained;
use tw_json_output::{Printed, explanation_line, printed_line};
use tw_order::{Answer, Assembling, Form, Order, Places, RunAnswer};
use tw_program_output::{error_line, failure_in, listed_error_line};
use tw_source::{Close, Reply};

/// The form that a reply's text takes.
#[derive(Clone, Copy)]
pub enum Rendering {
    /// It stays.
    Plain,
    /// An error becomes an object. Any other reply is one already.
    Errors,
    /// Like `Errors`, but an error may come after a listing.
    ListedErrors,
    /// It becomes the object of what is printed, or of an error.
    Whole(Printed),
}

/// Returns the form of a reply if JSON may be requested.
fn in_json(form: Form, rendering: Rendering) -> Rendering
    ensures { result ≡ in_json form rendering }
{
    match form {
        Form::Text => Rendering::Plain,
        Form::Json => rendering,
    }
}

/// Returns the object of what `asm` prints.
fn assembled_as(what: Assembling) -> Printed
    ensures { result ≡ assembled_as what }
{
    match what {
        Assembling::Text | Assembling::Names => Printed::Digits,
        Assembling::Plain => Printed::Plain,
    }
}

/// Returns the object of what `disasm` prints.
fn disassembled_as(places: Places) -> Printed
    ensures { result ≡ disassembled_as places }
{
    match places {
        Places::Hidden => Printed::Text,
        Places::Shown => Printed::Listing,
    }
}

/// Returns the form of the reply to a check, as JSON.
fn checked_as(places: Places) -> Rendering
    ensures { result ≡ checked_as places }
{
    match places {
        Places::Hidden => Rendering::Errors,
        Places::Shown => Rendering::ListedErrors,
    }
}

/// Returns the form of the reply to a run.
fn run_as_json(answer: RunAnswer) -> Rendering
    ensures { result ≡ run_as_json answer }
{
    match answer {
        RunAnswer::Json | RunAnswer::OrderJson => Rendering::Errors,
        RunAnswer::Report | RunAnswer::Numbers | RunAnswer::Order => Rendering::Plain,
        RunAnswer::Picture(_) => Rendering::Plain,
    }
}

/// Returns the form of the reply to a replay.
fn replayed_as(answer: Answer) -> Rendering
    ensures { result ≡ replayed_as answer }
{
    match answer {
        Answer::Json => Rendering::Errors,
        Answer::Report | Answer::Numbers | Answer::Picture(_) => Rendering::Plain,
    }
}

/// Returns the form that the text of the reply to an order takes.
pub fn rendering_of(order: &Order) -> Rendering
    ensures { result ≡ rendering_of order.now }
{
    match order {
        Order::Assemble(order) => in_json(order.form, Rendering::Whole(assembled_as(order.what))),
        Order::Disassemble(_, order) => in_json(
            order.form,
            Rendering::Whole(disassembled_as(order.places)),
        ),
        Order::Check(_, order) => in_json(order.form, checked_as(order.places)),
        Order::Run(_, options, _) => run_as_json(options.answer),
        Order::Each(..) => Rendering::Plain,
        Order::Replay(_, answer, _, _) => replayed_as(*answer),
    }
}

/// Returns whether a reply that closes so is of an error.
fn is_error(close: Close) -> bool
    ensures { result ≡ is_error close }
{
    failure_in(close).is_some()
}

/// Returns the reply of a line, if it could be made.
fn json_reply(line: Result<String, AllocError>, close: Close) -> Result<Reply, AllocError>
    requires { IfOk line (λ l. IsJsonLine (string_bytes l)) }
    ensures { IfOk result (λ r. (r.close ≡ close) × IsJsonLine r.text.items) }
{
    match line {
        Ok(line) => Ok(Reply {
            text: line.into_bytes(),
            close,
            more: None,
        }),
        Err(_) => Err(AllocError),
    }
}

/// Returns a reply in the requested form.
pub fn in_form(alloc: Global, rendering: Rendering, text: Reply) -> Result<Reply, AllocError>
    ensures { IfOk result (λ r. IsInForm rendering (reply text.text.items text.close) (reply r.text.items r.close)) }
{
    let close = text.close;
    match rendering {
        Rendering::Plain => Ok(text),
        Rendering::Errors if is_error(close) => json_reply(error_line(alloc, &text), close),
        Rendering::Errors => Ok(text),
        Rendering::ListedErrors if is_error(close) => {
            json_reply(listed_error_line(alloc, &text), close)
        }
        Rendering::ListedErrors => Ok(text),
        Rendering::Whole(_) if is_error(close) => json_reply(error_line(alloc, &text), close),
        Rendering::Whole(printed) => json_reply(printed_line(alloc, printed, &text.text), close),
    }
}

/// Returns the reply with an explanation.
pub fn explained_reply(alloc: Global, explained: Explained) -> Result<Reply, AllocError>
    ensures { IfOk result (λ r. IsExplanation explained (reply r.text.items r.close)) }
{
    match explained.form {
        Form::Text => Ok(Reply {
            text: explained.text,
            close: Close::Success,
            more: None,
        }),
        Form::Json => {
            let line = explanation_line(alloc, &explained.code, &explained.text);
            json_reply(line, Close::Success)
        }
    }
}
