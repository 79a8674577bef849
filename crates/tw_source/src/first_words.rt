//! First words of lines.

use tw_lexer::line_numbered;

/// Returns the first word of the line with this number, or nothing.
pub(crate) fn first_word(text: &str, number: usize) -> &str {
    match line_numbered(text, number) {
        Some(line) => line.split_whitespace().next().unwrap_or(""),
        None => "",
    }
}
