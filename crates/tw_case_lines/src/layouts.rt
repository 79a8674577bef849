//! The layouts of a line.

use crate::complaint::Complaint;
use crate::text::Text;
use std::alloc::Global;
use tw_types::Layout;

/// Reads a layout such as `1 1 4`. An empty text is two of each kind.
pub fn read_layout(text: &str) -> Result<Layout, Complaint> {
    if text.is_empty() {
        return layout_of((2, 2, 2));
    }
    layout_of(read_numbers(text)?)
}

/// Makes a layout of these numbers of engines, servers and workers.
pub fn layout_of((engines, servers, workers): (u8, u8, u8)) -> Result<Layout, Complaint> {
    match Layout::new(engines, servers, workers) {
        Ok(layout) => Ok(layout),
        Err(_) => Err(Complaint::LayoutLimits),
    }
}

/// Reads the three numbers of a layout such as `1 1 4`.
fn read_numbers(text: &str) -> Result<(u8, u8, u8), Complaint> {
    let Some((engines, rest)) = text.split_once(' ') else {
        return Err(Complaint::LayoutNumbers);
    };
    let Some((servers, workers)) = rest.split_once(' ') else {
        return Err(Complaint::LayoutNumbers);
    };
    Ok((
        engines.parse::<u8>()?,
        servers.parse::<u8>()?,
        workers.parse::<u8>()?,
    ))
}

/// Returns the layout of three numbers in a case's output, or why there is none.
pub fn layout_text(alloc: Global, words: &str) -> Result<String, Complaint> {
    let (engines, servers, workers) = read_numbers(words)?;
    let mut text = Text::new(alloc);
    match Layout::new(engines, servers, workers) {
        Ok(layout) => put_layout(&mut text, layout),
        Err(rejection) => text.display(&rejection),
    }
    text.into_line()
}

/// Adds a layout as `engines 1 servers 1 workers 4`.
pub fn put_layout(text: &mut Text, layout: Layout) {
    text.number("engines ", u64::from(layout.engines()));
    text.number(" servers ", u64::from(layout.servers()));
    text.number(" workers ", u64::from(layout.workers()));
}
