//! The options that take no numbers.

use crate::numbers::Numbers;
use clap::ArgMatches;
use tw_order::{
    Answer, AssembleOrder, Assembling, BoundsOf, CheckLines, CheckOrder, DisassembleOrder,
    EventOrder, Form, Places, RunAnswer, RunOptions, Source,
};

/// The lines for options that exclude each other.
const JSON_WITH_MORE: &str = "error: --json excludes --trace and --stats\n";

const ORDER_WITH_STATS: &str = "error: --order excludes --stats\n";

const EACH_WITH_MORE: &str =
    "error: --each excludes --trace, --stats, --order, --picture, --inputs, --inputs-json and input arguments\n";

const JSON_INPUTS_WITH_MORE: &str = "error: --inputs-json excludes --inputs and input arguments\n";

const JOBS_ALONE: &str = "error: --jobs needs --each\n";

const SEED_ALONE: &str = "error: --seed needs --in-turn, and excludes --each\n";

const PICTURE_WITH_MORE: &str = "error: --picture excludes --trace, --stats, --order and --json\n";

const RANGE_ALONE: &str = "error: --from and --to need --picture\n";

const REVERSED: &str = "error: --to takes no number below that of --from\n";

const BOUNDS: &str = "error: --bounds takes no value, or main, or all\n";

/// Returns whether an option is given.
fn is_named(matches: &ArgMatches<'_>, name: &str) -> bool {
    matches.get_str(name).is_some()
}

/// Returns whether there are input arguments.
pub(crate) fn has_words(matches: &ArgMatches<'_>) -> bool {
    match matches.get_strs("input") {
        Some(words) => !words.is_empty(),
        None => false,
    }
}

/// Returns how the program is written: `--text` is for assembly text.
pub(crate) fn source_given(matches: &ArgMatches<'_>) -> Source {
    if matches.get_flag("text") {
        Source::Assembly
    } else {
        Source::Hex
    }
}

/// Returns the form of the output.
pub(crate) fn form_given(matches: &ArgMatches<'_>) -> Form {
    if matches.get_flag("json") {
        Form::Json
    } else {
        Form::Text
    }
}

/// Returns whether the instructions are listed by their places.
fn places_given(matches: &ArgMatches<'_>) -> Places {
    if matches.get_flag("places") {
        Places::Shown
    } else {
        Places::Hidden
    }
}

/// Returns what `asm` reads and writes.
pub(crate) fn assembly_given(matches: &ArgMatches<'_>) -> AssembleOrder {
    let what = if matches.get_flag("plain") {
        Assembling::Plain
    } else if matches.get_flag("names") {
        Assembling::Names
    } else {
        Assembling::Text
    };
    AssembleOrder {
        what,
        form: form_given(matches),
    }
}

/// Returns what `disasm` writes.
pub(crate) fn disassembly_given(matches: &ArgMatches<'_>) -> DisassembleOrder {
    DisassembleOrder {
        places: places_given(matches),
        form: form_given(matches),
    }
}

/// Returns whose bounds a check prints.
fn bounds_given(matches: &ArgMatches<'_>) -> Result<BoundsOf, &'static str> {
    match matches.get_str("bounds") {
        Some("main") => Ok(BoundsOf::OfMain),
        Some("all") => Ok(BoundsOf::OfEach),
        Some(_) => Err(BOUNDS),
        None => Ok(BoundsOf::NoBounds),
    }
}

/// Returns what a check says after the budgets and the needs.
fn lines_given(matches: &ArgMatches<'_>) -> Result<CheckLines, &'static str> {
    Ok(CheckLines {
        bounds: bounds_given(matches)?,
        event_order: if matches.get_flag("order") {
            EventOrder::Checked
        } else {
            EventOrder::Ignored
        },
    })
}

/// Returns what a check prints beside the budgets, and what it admits.
pub(crate) fn check_given(
    matches: &ArgMatches<'_>,
    numbers: &Numbers,
) -> Result<CheckOrder, &'static str> {
    let lines = lines_given(matches)?;
    let limit = if is_named(matches, "limit") {
        Some(numbers.limit)
    } else {
        None
    };
    Ok(CheckOrder {
        places: places_given(matches),
        limit,
        lines,
        caps: numbers.caps,
        form: form_given(matches),
    })
}

/// Returns whether a trace or statistics are requested, beside a report.
fn has_more(matches: &ArgMatches<'_>) -> bool {
    matches.get_flag("trace") || matches.get_flag("stats")
}

/// Returns what `replay` writes.
pub(crate) fn replay_answer(matches: &ArgMatches<'_>) -> Result<Answer, &'static str> {
    let json = matches.get_flag("json");
    match (json, matches.get_flag("stats")) {
        (true, false) => Ok(Answer::Json),
        (true, true) => Err(JSON_WITH_MORE),
        (false, true) => Ok(Answer::Numbers),
        (false, false) => Ok(Answer::Report),
    }
}

/// Returns the timeline that `picture` draws of a trace.
pub(crate) fn picture_answer(numbers: &Numbers) -> Result<Answer, &'static str> {
    if numbers.range.is_reversed() {
        return Err(REVERSED);
    }
    Ok(Answer::Picture(numbers.range))
}

/// Returns the timeline that `run` draws.
fn drawn_answer(matches: &ArgMatches<'_>, numbers: &Numbers) -> Result<RunAnswer, &'static str> {
    if matches.get_flag("json") || matches.get_flag("order") || has_more(matches) {
        return Err(PICTURE_WITH_MORE);
    }
    if numbers.range.is_reversed() {
        return Err(REVERSED);
    }
    Ok(RunAnswer::Picture(numbers.range))
}

/// Returns what `run` writes without a timeline.
fn written_answer(matches: &ArgMatches<'_>) -> Result<RunAnswer, &'static str> {
    let json = matches.get_flag("json");
    let order = matches.get_flag("order");
    let stats = matches.get_flag("stats");
    if is_named(matches, "from") || is_named(matches, "to") {
        return Err(RANGE_ALONE);
    }
    if order && stats {
        return Err(ORDER_WITH_STATS);
    }
    if json && has_more(matches) {
        return Err(JSON_WITH_MORE);
    }
    Ok(match (json, order, stats) {
        (true, true, _) => RunAnswer::OrderJson,
        (true, false, _) => RunAnswer::Json,
        (false, true, _) => RunAnswer::Order,
        (false, false, true) => RunAnswer::Numbers,
        (false, false, false) => RunAnswer::Report,
    })
}

/// Returns whether `--each` is given with other output or other inputs.
fn has_more_than_lines(matches: &ArgMatches<'_>) -> bool {
    let has_inputs = matches.get_flag("inputs") || has_words(matches);
    let has_output = matches.get_flag("picture") || matches.get_flag("order") || has_more(matches);
    has_output || matches.get_flag("inputs-json") || has_inputs
}

/// Returns the line for `--seed`, `--each`, `--jobs` or `--inputs-json` with options that they exclude, if there is one.
fn each_conflict(matches: &ArgMatches<'_>) -> Option<&'static str> {
    let each = matches.get_flag("each");
    if is_named(matches, "seed") && (!matches.get_flag("in-turn") || each) {
        Some(SEED_ALONE)
    } else if each && has_more_than_lines(matches) {
        Some(EACH_WITH_MORE)
    } else if !each && is_named(matches, "jobs") {
        Some(JOBS_ALONE)
    } else if matches.get_flag("inputs-json")
        && (matches.get_flag("inputs") || has_words(matches))
    {
        Some(JSON_INPUTS_WITH_MORE)
    } else {
        None
    }
}

/// Returns how a program is run. Returns the line if options exclude each other.
pub(crate) fn run_given(
    matches: &ArgMatches<'_>,
    numbers: &Numbers,
) -> Result<RunOptions, &'static str> {
    let answer = if matches.get_flag("picture") {
        drawn_answer(matches, numbers)?
    } else {
        written_answer(matches)?
    };
    if let Some(line) = each_conflict(matches) {
        return Err(line);
    }
    Ok(RunOptions {
        answer,
        layout: numbers.layout,
        limit: numbers.limit,
        caps: numbers.caps,
        trace: matches.get_flag("trace"),
        in_turn: matches.get_flag("in-turn"),
        seed: numbers.seed,
        seconds: numbers.seconds,
        is_watched: false,
    })
}
