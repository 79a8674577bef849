//! Pages of help.

use crate::command_rows::ArgumentForm;
use crate::option_forms::is_option;
use std::alloc::{AllocError, Global};

/// Returns what help shows after an option that a file may follow; nothing for other words.
fn file_after(word: &str) -> &'static str {
    if is_option(ArgumentForm::Inputs, word) {
        " [DATA]"
    } else if is_option(ArgumentForm::Trace, word) {
        " [TRACE]"
    } else {
        ""
    }
}

/// Returns a page of help with the files that may follow options. Clap knows these options as flags.
pub(crate) fn with_files(alloc: Global, page: &str) -> Result<String, AllocError> {
    let mut shown = String::new(alloc);
    for line in page.lines() {
        shown.push_str(line)?;
        shown.push_str(file_after(line.trim()))?;
        shown.push('\n')?;
    }
    Ok(shown)
}
