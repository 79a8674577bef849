//! Inputs that are typed without a prefix.

use std::alloc::{AllocError, Global};

/// Returns whether a word is an integer: decimal digits, with an optional sign.
fn is_integer(word: &str) -> bool {
    let digits = word.strip_prefix('-').unwrap_or(word);
    !digits.is_empty() && digits.bytes().all(|byte| byte.is_ascii_digit())
}

/// Returns what is between square brackets, without blanks around it.
fn inside_brackets(word: &str) -> Option<&str> {
    let inside = word.strip_prefix('[')?.strip_suffix(']')?;
    Some(inside.trim_ascii())
}

/// Items of an array, which are copied one after the other.
#[derive(Drop)]
struct Items {
    alloc: Global,
    out: String,
    /// How many items have begun.
    count: usize,
    /// Whether a character of the last item has come, and blanks after it.
    has_begun: bool,
    has_gap: bool,
    /// Whether a quoted text has begun and not ended.
    is_quoted: bool,
    /// Whether the next character of a quoted text belongs to an escape.
    is_escaped: bool,
}

impl Items {
    /// Begins the next item, by its subscript.
    fn begin(&mut self) -> Result<(), AllocError> {
        let subscript = self.count;
        self.count = self.count.saturating_add(1);
        self.has_begun = false;
        let text = format!(in self.alloc; "{subscript}=")?;
        self.out.push_str(text.as_str())
    }

    /// Copies a character of a quoted text.
    fn put_quoted(&mut self, c: char) -> Result<(), AllocError> {
        self.is_quoted = self.is_escaped || c != '"';
        self.is_escaped = !self.is_escaped && c == '\\';
        self.out.push(c)
    }

    /// Copies a character outside a quoted text. Blanks around an item are left out, those inside it become one.
    fn put_plain(&mut self, c: char) -> Result<(), AllocError> {
        if c.is_ascii_whitespace() {
            self.has_gap = self.has_begun;
            return Ok(());
        }
        if self.has_gap && c != ',' {
            self.out.push(' ')?;
        }
        self.has_gap = false;
        self.has_begun = true;
        self.is_quoted = c == '"';
        self.out.push(c)?;
        if c == ',' { self.begin() } else { Ok(()) }
    }

    /// Copies a character.
    fn put(&mut self, c: char) -> Result<(), AllocError> {
        if self.is_quoted {
            self.put_quoted(c)
        } else {
            self.put_plain(c)
        }
    }
}

/// Returns the word of an input for the items of an array: the first has the subscript 0.
fn array_word(alloc: Global, inside: &str) -> Result<String, AllocError> {
    let kind = if inside.starts_with('"') {
        "texts:"
    } else {
        "ints:"
    };
    let mut items = Items {
        alloc,
        out: String::from_str(alloc, kind)?,
        count: 0,
        has_begun: false,
        has_gap: false,
        is_quoted: false,
        is_escaped: false,
    };
    if !inside.is_empty() {
        items.begin()?;
    }
    for c in inside.chars() {
        items.put(c)?;
    }
    Ok(items.out)
}

/// Returns the word of an input for an integer without its prefix, or for an array of integers or of quoted texts.
pub fn bare_input(alloc: Global, word: &str) -> Result<Option<String>, AllocError> {
    if is_integer(word) {
        let input = format!(in alloc; "int:{word}")?;
        return Ok(Some(input));
    }
    match inside_brackets(word) {
        Some(inside) => {
            let input = array_word(alloc, inside)?;
            Ok(Some(input))
        }
        None => Ok(None),
    }
}
