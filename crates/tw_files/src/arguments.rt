//! Which words are among arguments.

ghost use Rattle.std.specs.Prelude.{◌≡◌, map, string_bytes};
ghost use Rattle.std.specs.Str.{bytes_eq};
ghost use Rattle.std.specs.List.{list_any};
ghost use Rattle.tw_files.specs.Input.{has_word as has_word_is, reads_trace as reads_trace_is, requests_help as requests_help_is};

/// Returns whether an argument of a command is this word.
fn is_word(word: &str, other: &String) -> bool
    ensures { result ≡ bytes_eq (string_bytes other.now) word.now }
{
    other.as_str() == word
}

/// Returns whether a word is among the arguments of a command.
fn is_among(word: &str, words: &[String]) -> bool
    ensures { result ≡ list_any (λ other. bytes_eq (string_bytes other) word.now) words.now }
{
    words.iter().any(|other| is_word(word, other))
}

/// Returns whether an option is among the arguments of a command.
pub fn has_word(word: &str, words: &[String]) -> bool
    ensures { result ≡ has_word_is word.now (map string_bytes words.now) }
{
    is_among(word, words)
}

/// Returns whether a command reads a trace after the program.
pub fn reads_trace(command: &str) -> bool
    ensures { result ≡ reads_trace_is command.now }
{
    command == "replay" || command == "picture"
}

/// Returns whether the arguments of a command request its help.
pub fn requests_help(words: &[String]) -> bool
    ensures { result ≡ requests_help_is (map string_bytes words.now) }
{
    has_word("--help", words) || has_word("-h", words)
}
