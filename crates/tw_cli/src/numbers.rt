//! The options that take numbers.

ghost use Rattle.std.specs.Prelude.{IfOk, IfSome};
ghost use Rattle.std.specs.Int.{IsInRange};

use clap::ArgMatches;
use std::time::Duration;
use tw_lexer::digits;
use tw_order::{Caps, EventLimit, EventRange};
use tw_types::Layout;

/// The line for a wrong number of engines.
const ENGINES: &str = "error: --engines takes a number from 1 to 4\n";

const SERVERS: &str = "error: --servers takes a number from 1 to 4\n";

const WORKERS: &str = "error: --workers takes a number from 1 to 16\n";

const LIMIT: &str = "error: --limit takes a number from 1 to 1000000\n";

const JOBS: &str = "error: --jobs takes a number from 1 to 64\n";

const SEED: &str = "error: --seed takes a number from 1 to 18446744073709551615\n";

const SECONDS: &str =
    "error: --seconds takes a number from 0.001 to 4294967295, with up to three decimals\n";

const EVENTS: &str = "error: --from and --to take numbers from 1 to 4294967295\n";

const CAPS: &str = "error: --most-tasks and its like take numbers from 1 to 18446744073709551615\n";

/// The most seconds of a run.
const MOST_SECONDS: u64 = 4_294_967_295;

/// The numbers that the options of a command give. What isn't given has its default.
#[derive(Clone, Copy)]
pub(crate) struct Numbers {
    pub(crate) layout: Layout,
    pub(crate) limit: EventLimit,
    pub(crate) jobs: usize,
    pub(crate) seed: Option<u64>,
    pub(crate) seconds: Option<Duration>,
    pub(crate) range: EventRange,
    pub(crate) caps: Caps,
}

/// Returns the number of an option, if it is given. Returns the line if its value isn't a number from 1 to `most`.
fn number_given(
    matches: &ArgMatches<'_>,
    name: &str,
    most: u64,
    line: &'static str,
) -> Result<Option<u64>, &'static str>
    ensures { IfOk result (λ number. IfSome number (IsInRange 1 most)) }
{
    match matches.get_str(name) {
        Some(word) => match digits(word.as_bytes(), 1, most) {
            Ok(number) => Ok(Some(number)),
            Err(_) => Err(line),
        },
        None => Ok(None),
    }
}

/// Returns the numbers of actors.
fn layout_given(matches: &ArgMatches<'_>) -> Result<Layout, &'static str> {
    let engines = number_given(matches, "engines", 4, ENGINES)?.unwrap_or(1);
    let servers = number_given(matches, "servers", 4, SERVERS)?.unwrap_or(1);
    let workers = number_given(matches, "workers", 16, WORKERS)?.unwrap_or(1);
    match Layout::new(engines as u8, servers as u8, workers as u8) {
        Ok(layout) => Ok(layout),
        Err(_) => Err(WORKERS),
    }
}

/// Returns the limit of events; the largest if it isn't given.
fn limit_given(matches: &ArgMatches<'_>) -> Result<EventLimit, &'static str> {
    let most = EventLimit::MAX as u64;
    let events = number_given(matches, "limit", most, LIMIT)?.unwrap_or(most);
    match EventLimit::new(events as usize) {
        Some(limit) => Ok(limit),
        None => Err(LIMIT),
    }
}

/// Returns the events that a timeline shows.
fn range_given(matches: &ArgMatches<'_>) -> Result<EventRange, &'static str> {
    let most = u64::from(u32::MAX);
    let from = number_given(matches, "from", most, EVENTS)?.unwrap_or(1);
    let to = number_given(matches, "to", most, EVENTS)?.unwrap_or(most);
    Ok(EventRange {
        from: from as u32,
        to: to as u32,
    })
}

/// Returns a cap; the greatest if it isn't given.
fn cap_given(matches: &ArgMatches<'_>, name: &str) -> Result<u64, &'static str> {
    Ok(number_given(matches, name, u64::MAX, CAPS)?.unwrap_or(u64::MAX))
}

/// Returns the caps.
fn caps_given(matches: &ArgMatches<'_>) -> Result<Caps, &'static str> {
    Ok(Caps {
        tasks: cap_given(matches, "most-tasks")?,
        instructions: cap_given(matches, "most-instructions")?,
        data: cap_given(matches, "most-data")?,
        bytes: cap_given(matches, "most-bytes")?,
        budget: cap_given(matches, "most-budget")?,
        members: cap_given(matches, "most-members")?,
        rules: u64::MAX,
    })
}

/// Returns how many milliseconds a number of seconds is: digits, or digits, a point and up to three more.
fn milliseconds(word: &str) -> Option<u64> {
    let (whole, decimals) = word.split_once('.').unwrap_or((word, "0"));
    let scale = match decimals.len() {
        1 => 100,
        2 => 10,
        3 => 1,
        _ => return None,
    };
    let whole = digits(whole.as_bytes(), 0, MOST_SECONDS).ok()?;
    let part = digits(decimals.as_bytes(), 0, 999).ok()?;
    Some(1000 * whole + scale * part)
}

/// Returns the time after which a run is stopped.
fn seconds_given(matches: &ArgMatches<'_>) -> Result<Option<Duration>, &'static str> {
    let Some(word) = matches.get_str("seconds") else {
        return Ok(None);
    };
    match milliseconds(word) {
        Some(time) if 0 < time && time <= 1000 * MOST_SECONDS => {
            Ok(Some(Duration::from_millis(time)))
        }
        _ => Err(SECONDS),
    }
}

/// Returns the numbers of all options. Returns the line for the first option with a wrong value.
pub(crate) fn numbers_given(matches: &ArgMatches<'_>) -> Result<Numbers, &'static str> {
    let layout = layout_given(matches)?;
    let limit = limit_given(matches)?;
    let jobs = number_given(matches, "jobs", 64, JOBS)?.unwrap_or(1);
    let seed = number_given(matches, "seed", u64::MAX, SEED)?;
    let seconds = seconds_given(matches)?;
    let range = range_given(matches)?;
    let caps = caps_given(matches)?;
    Ok(Numbers {
        layout,
        limit,
        jobs: jobs as usize,
        seed,
        seconds,
        range,
        caps,
    })
}
