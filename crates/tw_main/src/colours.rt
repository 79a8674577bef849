//! Colours of lines on a terminal.

/// The colour of an error, of a run that isn't over, and of success.
const RED: &str = "\x1b[31m";

const YELLOW: &str = "\x1b[33m";

const GREEN: &str = "\x1b[32m";

/// Ends a colour.
pub const PLAIN: &str = "\x1b[0m";

/// How lines of errors begin.
const ERRORS: [&str; 4] = ["refused ", "trap ", "not enabled ", "error: "];

/// Returns the colour of a line without its end, by the words of the command that it has.
pub fn colour_of(line: &str) -> Option<&'static str> {
    match line {
        "accepted" | "quiet" => Some(GREEN),
        "running" | "limit" | "stopped" => Some(YELLOW),
        _ if line.starts_with("stuck ") => Some(YELLOW),
        _ if line.ends_with(" refused") => Some(RED),
        _ if ERRORS.iter().any(|begin| line.starts_with(*begin)) => Some(RED),
        _ => None,
    }
}
