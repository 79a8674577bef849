//! The last lines of a report.

ghost use Rattle.std.specs.Prelude.{◌≡◌, ◌++◌, IfOk, OnOk, option_map};
ghost use Rattle.tw_report.specs.Report.{ending_lines, link_line, link_lines, stuck_lines};

use crate::lines::{put, put_numbered};
use std::alloc::{AllocError, Global};
use tw_types::{Ending, Link};

/// Adds the line of a link of the circle.
fn put_link_line(out: &mut Vec<u8>, link: &Link) -> Result<(), AllocError>
    ensures { OnOk result (out.new.items ≡ out.old.items ++ link_line link.now) }
{
    put_numbered(out, "waits ", link.rule.number() as usize)?;
    put_numbered(out, " ", link.datum.number() as usize)?;
    put_numbered(out, " ", link.next.number() as usize)?;
    put(out, "\n")
}

/// Adds the lines of the links of the circle.
fn put_link_lines(out: &mut Vec<u8>, links: &[Link]) -> Result<(), AllocError>
    ensures { OnOk result (out.new.items ≡ out.old.items ++ link_lines links.now) }
{
    for link in links {
        put_link_line(out, link)?;
    }
    Ok(())
}

/// Returns the lines on pending rules: how many they are, and the circle among them, if there is one.
fn stuck_text(alloc: Global, rules: u64, found: Option<Vec<Link>>) -> Result<Vec<u8>, AllocError>
    ensures { IfOk result (λ text. text.items ≡ stuck_lines rules (option_map (λ v. v.items) found)) }
{
    let mut text = Vec::new(alloc);
    put_numbered(&mut text, "stuck ", rules as usize)?;
    put(&mut text, "\n")?;
    match found {
        Some(links) => put_link_lines(&mut text, &links)?,
        None => {}
    }
    Ok(text)
}

/// Returns a text with these words.
pub fn text_of(alloc: Global, words: &str) -> Result<Vec<u8>, AllocError>
    ensures { IfOk result (λ text. text.items ≡ words.now) }
{
    let mut text = Vec::new(alloc);
    put(&mut text, words)?;
    Ok(text)
}

/// Returns the lines on how a run has ended, with the circle that was found, or that it is still running.
pub fn ending_text(
    alloc: Global,
    ending: Option<Ending>,
    found: Option<Vec<Link>>,
) -> Result<Vec<u8>, AllocError>
    ensures { IfOk result (λ text. text.items ≡ ending_lines ending (option_map (λ v. v.items) found)) }
{
    match ending {
        Some(Ending::Quiet) => text_of(alloc, "quiet\n"),
        Some(Ending::Stuck(rules)) => stuck_text(alloc, rules, found),
        None => text_of(alloc, "running\n"),
    }
}
