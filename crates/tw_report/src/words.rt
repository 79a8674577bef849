//! Splits a line into words.

ghost use Rattle.std.specs.Prelude.{◌≡◌, ◌↔◌, [], IsTrue};
ghost use Rattle.tw_lexer.specs.Words.{is_parting};
ghost use Rattle.tw_report.specs.Events.{words_in};
ghost use Rattle.tw_report.specs.reading.Words.{IsAtWord, with_word, word_length};

/// Returns whether a byte is between words.
fn parts_words(byte: u8) -> bool
    ensures { result ≡ is_parting byte }
{
    byte == b' ' || byte == b'\t' || byte == b'\r'
}

/// Returns the bytes after the gap at the start.
fn without_gap(bytes: &[u8]) -> &[u8]
    ensures words { words_in result.now ≡ words_in bytes.now }
    ensures here { IsAtWord result.now }
{
    let mut rest = bytes;
    while let [byte, after @ ..] = rest {
        if !parts_words(*byte) {
            return rest;
        }
        rest = after;
    }
    rest
}

/// Returns how many bytes are before the first gap.
fn word_length(bytes: &[u8]) -> usize
    ensures { result ≡ word_length bytes.now }
{
    let mut count = 0;
    for byte in bytes {
        if parts_words(*byte) {
            return count;
        }
        count += 1;
    }
    count
}

/// Returns the first word, and the bytes after it. The word is empty if there is none.
pub fn first_word(line: &[u8]) -> (&[u8], &[u8])
    ensures { words_in line.now ≡ with_word result.0.now (words_in result.1.now) }
{
    let rest = without_gap(line);
    rest.split_at(word_length(rest))
}

/// Returns whether there is no word.
pub fn is_blank(line: &[u8]) -> bool
    ensures { IsTrue result ↔ (words_in line.now ≡ []) }
{
    without_gap(line).is_empty()
}
