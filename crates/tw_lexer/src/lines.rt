//! Finds lines of a text by their numbers.

ghost use Rattle.std.specs.Prelude.{◌≡◌, ◌-◌, MatchOption, None, Some, slice_get};
ghost use Rattle.std.specs.Str.Lines.{lines};

/// Returns the line of a text with this number, counted from 1, if the text has one.
pub fn line_numbered<'a>(text: &'a str, number: usize) -> Option<&'a str>
    ensures { MatchOption result (slice_get (lines text.entry.now) (number - 1) ≡ None) (λ line. slice_get (lines text.entry.now) (number - 1) ≡ Some line.now) }
{
    text.lines().nth(number.saturating_sub(1))
}
