//! Reads the events of lines.

ghost use Rattle.std.specs.Prelude.{◌≡◌, ◌≤◌, IfSome, MatchOption};
ghost use Rattle.std.specs.Option.{option_map};
ghost use Rattle.tw_types.specs.declared.event.Event.{Event as AnEvent};
ghost use Rattle.tw_types.specs.declared.event.Event.TheVariants.{Take, Call, End};
ghost use Rattle.tw_report.specs.Events.{EncodesEvent, words_in};
ghost use Rattle.tw_report.specs.reading.Event.{actor_in, alone, ask_in, number_after, deliver_in, event_in, first, for_actor, local_in, named, number_in, parameter_in, release_in};

use crate::words::{first_word, is_blank};
use tw_lexer::digits;
use tw_types::{Actor, DatumId, Event, RuleNo};

/// Returns the number that a word writes, if it is within these limits.
fn number_in(word: &[u8], low: u64, high: u64) -> Option<u64>
    ensures is { result ≡ number_in low high word.now }
    ensures within { IfSome result (λ n. n ≤ high) }
{
    match digits(word, low, high) {
        Ok(number) => Some(number),
        Err(_) => None,
    }
}

/// Returns the number up to 255 that a word writes.
fn byte_in(word: &[u8]) -> Option<u8>
    ensures { result ≡ number_in 0 255 word.now }
{
    let number = number_in(word, 0, 255)?;
    Some(number as u8)
}

/// Returns the number of a parameter, or 255 if it is greater.
#[tactic(auto, unfolding(crate::specs::reading::Event::parameter_in))]
fn parameter_in(word: &[u8]) -> Option<u8>
    ensures { result ≡ parameter_in word.now }
{
    let number = number_in(word, 0, u64::MAX)?;
    Some(number.min(255) as u8)
}

/// Returns the number after a letter.
#[tactic(auto, unfolding(crate::specs::reading::Event::number_after))]
fn number_after(letter: u8, word: &[u8]) -> Option<u8>
    ensures { result ≡ number_after letter word.now }
{
    match word {
        [first, rest @ ..] if *first == letter => byte_in(rest),
        _ => None,
    }
}

/// Returns the actor that a word names.
#[tactic(auto, unfolding(crate::specs::reading::Event::actor_in))]
fn actor_in(word: &[u8]) -> Option<Actor>
    ensures { result ≡ actor_in word.now }
{
    if let Some(number) = number_after(b'e', word) {
        return Some(Actor::Engine(number));
    }
    if let Some(number) = number_after(b's', word) {
        return Some(Actor::Server(number));
    }
    match number_after(b'w', word) {
        Some(number) => Some(Actor::Worker(number)),
        None => None,
    }
}

/// Returns the number in a line's first word, if it is within these limits, and the rest of the line.
fn first_number(line: &[u8], low: u64, high: u64) -> Option<(u64, &[u8])>
    ensures { option_map (λ f. (f.0, words_in f.1.now)) result ≡ first (number_in low high) (words_in line.now) }
{
    let (word, rest) = first_word(line);
    let number = number_in(word, low, high)?;
    Some((number, rest))
}

/// Returns the parameter in a line's first word, and the rest of the line.
fn first_parameter(line: &[u8]) -> Option<(u8, &[u8])>
    ensures { option_map (λ f. (f.0, words_in f.1.now)) result ≡ first parameter_in (words_in line.now) }
{
    let (word, rest) = first_word(line);
    let number = parameter_in(word)?;
    Some((number, rest))
}

/// Returns the number after a letter in a line's first word, and the rest of the line.
fn first_number_after(letter: u8, line: &[u8]) -> Option<(u8, &[u8])>
    ensures { option_map (λ f. (f.0, words_in f.1.now)) result ≡ first (number_after letter) (words_in line.now) }
{
    let (word, rest) = first_word(line);
    let number = number_after(letter, word)?;
    Some((number, rest))
}

/// Returns the actor in a line's first word, and the rest of the line.
fn first_actor(line: &[u8]) -> Option<(Actor, &[u8])>
    ensures { option_map (λ f. (f.0, words_in f.1.now)) result ≡ first actor_in (words_in line.now) }
{
    let (word, rest) = first_word(line);
    let actor = actor_in(word)?;
    Some((actor, rest))
}

/// Returns the event, if no word is left.
fn alone(event: Event, line: &[u8]) -> Option<Event>
    ensures { result ≡ alone event (words_in line.now) }
{
    if is_blank(line) { Some(event) } else { None }
}

/// Returns the Take in a line.
fn take_in(line: &[u8]) -> Option<Event>
    ensures { result ≡ for_actor Take (words_in line.now) }
{
    let (actor, rest) = first_actor(line)?;
    alone(Event::Take(actor), rest)
}

/// Returns the Local in a line.
fn local_in(line: &[u8]) -> Option<Event>
    ensures { result ≡ local_in (words_in line.now) }
{
    let (actor, rest) = first_actor(line)?;
    let (steps, rest) = first_number(rest, 1, 1_000_000_000)?;
    alone(Event::Local(actor, steps), rest)
}

/// Returns the Call in a line.
fn call_in(line: &[u8]) -> Option<Event>
    ensures { result ≡ for_actor Call (words_in line.now) }
{
    let (actor, rest) = first_actor(line)?;
    alone(Event::Call(actor), rest)
}

/// Returns the End in a line.
fn end_in(line: &[u8]) -> Option<Event>
    ensures { result ≡ for_actor End (words_in line.now) }
{
    let (actor, rest) = first_actor(line)?;
    alone(Event::End(actor), rest)
}

/// Returns the Ask in a line.
fn ask_in(line: &[u8]) -> Option<Event>
    ensures { result ≡ ask_in (words_in line.now) }
{
    let (engine, rest) = first_number_after(b'e', line)?;
    let (rule, rest) = first_number(rest, 0, u64::MAX)?;
    let (parameter, rest) = first_parameter(rest)?;
    alone(Event::Ask(engine, RuleNo::new(rule), parameter), rest)
}

/// Returns the Deliver in a line.
fn deliver_in(line: &[u8]) -> Option<Event>
    ensures { result ≡ deliver_in (words_in line.now) }
{
    let (server, rest) = first_number_after(b's', line)?;
    let (datum, rest) = first_number(rest, 0, u64::MAX)?;
    let (rule, rest) = first_number(rest, 0, u64::MAX)?;
    let (parameter, rest) = first_parameter(rest)?;
    alone(
        Event::Deliver(server, DatumId::new(datum), RuleNo::new(rule), parameter),
        rest,
    )
}

/// Returns the Release in a line.
fn release_in(line: &[u8]) -> Option<Event>
    ensures { result ≡ release_in (words_in line.now) }
{
    let (engine, rest) = first_number_after(b'e', line)?;
    let (rule, rest) = first_number(rest, 0, u64::MAX)?;
    alone(Event::Release(engine, RuleNo::new(rule)), rest)
}

/// Returns the event of this name, if the other words complete it.
#[tactic(auto, unfolding(crate::specs::reading::Event::named))]
fn named(name: &[u8], rest: &[u8]) -> Option<Event>
    ensures { result ≡ named name.now (words_in rest.now) }
{
    if name == b"take".as_slice() {
        take_in(rest)
    } else if name == b"local".as_slice() {
        local_in(rest)
    } else if name == b"call".as_slice() {
        call_in(rest)
    } else if name == b"end".as_slice() {
        end_in(rest)
    } else if name == b"ask".as_slice() {
        ask_in(rest)
    } else if name == b"deliver".as_slice() {
        deliver_in(rest)
    } else if name == b"release".as_slice() {
        release_in(rest)
    } else {
        None
    }
}

/// Returns the event of a line, if it is one.
///
/// A line is the event's name, its actor and its numbers, separated by spaces, tabs and carriage returns. Numbers are decimal
/// digits, and leading zeros are allowed. A parameter's number over 255 is read as 255: no rule has that many.
pub fn event_of(line: &[u8]) -> Option<Event>
    ensures { MatchOption result ((event : AnEvent) → EncodesEvent event line.now → ⊥) (λ event. EncodesEvent event line.now) }
{
    let (name, rest) = first_word(line);
    named(name, rest)
}
