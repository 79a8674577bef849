//! Prints the lines of a text that made the rules of a circle.

ghost use Rattle.std.specs.Prelude.{◌≡◌, ◌++◌, ℕ, List, Some, IfOk, MatchOption, OnOk};
ghost use Rattle.tw_types.specs.declared.event.Event.{Event as AnEvent};
ghost use Rattle.tw_code.specs.machine.Pending.{circle};
ghost use Rattle.tw_replay_output.specs.Circle.{Start, PrintRules, PrintsCircle, PrintsRule, rule_line, rule_text};
ghost use Rattle.tw_symbols.specs.Symbols.{name_at};
ghost use Rattle.tw_source.specs.Source.{IsSource};
ghost use Rattle.tw_replay_output.specs.Stuck.{AreMade, IsLookup, IsMadeSo, IsReplayOf, IsUnmade};

use crate::replaying::{Made, Replaying};
use std::alloc::{AllocError, Global};
use tw_report::{circle_state, put, put_numbered};
use tw_source::{SourceText, TextLines, line_in, put_text_line};
use tw_symbols::Symbols;
use tw_types::{Link, RuleNo};

/// Returns where the rule with this number was made, if the events made it.
fn made_of(made: &[Made], rule: RuleNo) -> Option<Made>
    ensures { (start : Start) (events : List AnEvent) → AreMade start events made.now → MatchOption result (IsUnmade start events rule) (IsMadeSo start events rule) }
{
    let index = rule.number().checked_sub(1)?;
    match made.get(index as usize) {
        Some(own) => Some(*own),
        None => None,
    }
}

/// Adds which rule it is, and the procedure that it runs.
fn put_rule_text(
    out: &mut Vec<u8>,
    names: &Symbols,
    rule: RuleNo,
    procedure: usize,
) -> Result<(), AllocError>
    ensures { OnOk result (out.new.items ≡ out.old.items ++ rule_text rule procedure (name_at names.now procedure)) }
{
    put_numbered(out, "rule ", rule.number() as usize)?;
    put_numbered(out, " runs procedure ", procedure)?;
    names.put(out, procedure)?;
    put(out, ", made ")
}

/// Adds the line of a rule that was made by this line of the text.
fn put_rule_line(
    alloc: Global,
    out: &mut Vec<u8>,
    names: &Symbols,
    rule: RuleNo,
    procedure: usize,
    number: usize,
    line: &str,
) -> Result<(), AllocError>
    ensures { OnOk result (out.new.items ≡ out.old.items ++ rule_line rule procedure (name_at names.now procedure) number line.now) }
{
    put_rule_text(out, names, rule, procedure)?;
    put_text_line(alloc, out, number, line)
}

/// A text for looking up the lines of many rules: its lines, and the names of its procedures.
#[derive(Drop)]
struct Lookup<'a> {
    lines: TextLines<'a>,
    names: Symbols,
}

impl<'a> Lookup<'a> {
    /// Reads a text once for all rules.
    fn of(alloc: Global, source: &SourceText<'a>) -> Result<Lookup<'a>, AllocError>
        ensures { IfOk result (λ lookup. IsLookup lookup source.now) }
    {
        let lines = TextLines::of(alloc, source)?;
        let names = Symbols::of(alloc, source.text)?;
        Ok(Lookup { lines, names })
    }
}

/// Adds the line of a rule, if the events made it.
fn put_rule(
    alloc: Global,
    out: &mut Vec<u8>,
    source: &SourceText<'_>,
    lookup: &Lookup<'_>,
    made: &[Made],
    rule: RuleNo,
) -> Result<(), AllocError>
    ensures { OnOk result ((start : Start) (events : List AnEvent) → IsLookup lookup.now source.now → IsSource source.now start.program → AreMade start events made.now
        → (more : List ℕ) × PrintsRule lookup.now.names source.now.text.now start events rule more × (out.new.items ≡ out.old.items ++ more)) }
{
    let Some(own) = made_of(made, rule) else {
        return Ok(());
    };
    let Some((number, line)) = line_in(source, &lookup.lines, own.procedure, own.place) else {
        return Ok(());
    };
    put_rule_line(alloc, out, &lookup.names, rule, own.runs, number, line)
}

/// Adds a line for each rule of a circle.
fn put_rules(
    alloc: Global,
    out: &mut Vec<u8>,
    source: &SourceText<'_>,
    lookup: &Lookup<'_>,
    made: &[Made],
    links: &[Link],
) -> Result<(), AllocError>
    ensures { OnOk result ((start : Start) (events : List AnEvent) → IsLookup lookup.now source.now → IsSource source.now start.program → AreMade start events made.now
        → (more : List ℕ) × PrintRules lookup.now.names source.now.text.now start events links.now more × (out.new.items ≡ out.old.items ++ more)) }
{
    for link in links {
        put_rule(alloc, out, source, lookup, made, link.rule)?;
    }
    Ok(())
}

/// Adds a line for each rule of a circle, in one pass over the text.
fn put_links(
    alloc: Global,
    out: &mut Vec<u8>,
    source: &SourceText<'_>,
    made: &[Made],
    links: &[Link],
) -> Result<(), AllocError>
    ensures { OnOk result ((start : Start) (events : List AnEvent) → IsSource source.now start.program → AreMade start events made.now
        → (more : List ℕ) × PrintsCircle source.now.text.now start events (Some links.now) more × (out.new.items ≡ out.old.items ++ more)) }
{
    let lookup = Lookup::of(alloc, source)?;
    put_rules(alloc, out, source, &lookup, made, links)
}

/// Adds the lines of the circle in the state that a replay has reached, if there is one.
pub fn put_circle(
    alloc: Global,
    out: &mut Vec<u8>,
    source: &SourceText<'_>,
    replaying: &Replaying,
) -> Result<(), AllocError>
    ensures { OnOk result ((start : Start) (events : List AnEvent) → IsSource source.now start.program → IsReplayOf start events replaying.now
        → (more : List ℕ) × PrintsCircle source.now.text.now start events (circle start.program replaying.now.plain.state) more × (out.new.items ≡ out.old.items ++ more)) }
{
    match circle_state(alloc, &replaying.plain)? {
        Some(links) => put_links(alloc, out, source, &replaying.made, &links),
        None => Ok(()),
    }
}
