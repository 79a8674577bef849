//! Objects and arrays that are written piece by piece, with one look at the end whether memory sufficed.

ghost use Rattle.std.specs.Prelude.{◌≡◌, false, IfOk};
ghost use Rattle.serde_json.specs.View.{items_view, members_view, view};
ghost use Rattle.serde_json.specs.Written.{has_float, items_have_float, members_have_float};

use serde_json::{Map, Value as Json};
use std::alloc::{AllocError, Global};

/// Returns a text as a JSON string.
fn word_value(alloc: Global, word: &str) -> Result<Json, AllocError>
    ensures { IfOk result (λ value. has_float (view value) ≡ false) }
{
    Json::try_from_str(alloc, word)
}

/// Like `word_value`, for bytes; those that aren't UTF-8 are replaced.
fn text_value(alloc: Global, text: &[u8]) -> Result<Json, AllocError>
    ensures { IfOk result (λ value. has_float (view value) ≡ false) }
{
    let text = String::from_utf8_lossy(alloc, text)?;
    word_value(alloc, text.as_str())
}

/// An object to which members are added; none has a float. That an allocation failed is noted, and reported by `line`.
#[derive(Drop)]
pub struct ObjectWriter {
    alloc: Global,
    members: Map<String, Json>,
    is_short: bool,
    ghost whole: { members_have_float (members_view members.entries) ≡ false },
}

impl ObjectWriter {
    ghost use Rattle.std.specs.Prelude.{◌≡◌, false, IfOk, string_bytes};
    ghost use Rattle.serde_json.specs.View.{view};
    ghost use Rattle.serde_json.specs.Written.{has_float};
    ghost use Rattle.tw_json_output.specs.Lines.{IsJsonLine};

    /// Makes an object without members.
    pub fn new(alloc: Global) -> ObjectWriter {
        ObjectWriter {
            alloc,
            members: Map::new(alloc),
            is_short: false,
        }
    }

    /// Notes that a value couldn't be made.
    pub fn fail(&mut self) {
        self.is_short = true;
    }

    /// Adds a value.
    fn insert(&mut self, name: &str, value: Json)
        requires { has_float (view value) ≡ false }
    {
        match serde_json::put(&mut self.members, self.alloc, name, value) {
            Ok(()) => {}
            Err(_) => self.is_short = true,
        }
    }

    /// Adds a member with this value, if it could be made.
    fn put(&mut self, name: &str, value: Result<Json, AllocError>)
        requires { IfOk value (λ v. has_float (view v) ≡ false) }
    {
        match value {
            Ok(value) => self.insert(name, value),
            Err(_) => self.fail(),
        }
    }

    /// Adds a number.
    pub fn put_number(&mut self, name: &str, number: u64) {
        self.insert(name, Json::from(number))
    }

    /// Adds a text.
    pub fn put_word(&mut self, name: &str, word: &str) {
        let value = word_value(self.alloc, word);
        self.put(name, value)
    }

    /// Adds bytes as a text.
    pub fn put_bytes(&mut self, name: &str, bytes: &[u8]) {
        let value = text_value(self.alloc, bytes);
        self.put(name, value)
    }

    /// Adds the lines of a printed text, as an array of texts.
    pub fn put_lines(&mut self, name: &str, text: &[u8]) {
        let mut lines = ArrayWriter::new(self.alloc);
        lines.push_lines(self.alloc, text);
        self.put_array(name, lines)
    }

    /// Adds an object.
    pub fn put_object(&mut self, name: &str, object: ObjectWriter) {
        self.put(name, object.finish())
    }

    /// Adds an array.
    pub fn put_array(&mut self, name: &str, array: ArrayWriter) {
        self.put(name, array.finish())
    }

    /// Returns the object if all members were added.
    fn finish(self) -> Result<Json, AllocError>
        ensures { IfOk result (λ value. has_float (view value) ≡ false) }
    {
        if self.is_short {
            Err(AllocError)
        } else {
            Ok(Json::Object(self.members))
        }
    }

    /// Returns the object as one line, if all members were added.
    pub fn line(self) -> Result<String, AllocError>
        ensures { IfOk result (λ line. IsJsonLine (string_bytes line)) }
    {
        let alloc = self.alloc;
        let value = self.finish()?;
        let mut line = value.to_string(alloc)?;
        line.push_str("\n")?;
        Ok(line)
    }
}

/// An array to which values are added, like an `ObjectWriter`.
#[derive(Drop)]
pub struct ArrayWriter {
    values: Vec<Json>,
    is_short: bool,
    ghost whole: { items_have_float (items_view values.items) ≡ false },
}

impl ArrayWriter {
    ghost use Rattle.std.specs.Prelude.{◌≡◌, false, IfOk};
    ghost use Rattle.serde_json.specs.View.{view};
    ghost use Rattle.serde_json.specs.Written.{has_float};

    /// Makes an empty array.
    pub fn new(alloc: Global) -> ArrayWriter {
        ArrayWriter {
            values: Vec::new(alloc),
            is_short: false,
        }
    }

    /// Adds a value.
    fn insert(&mut self, value: Json)
        requires { has_float (view value) ≡ false }
    {
        match self.values.push(value) {
            Ok(()) => {}
            Err(_) => self.is_short = true,
        }
    }

    /// Adds a value, if it could be made.
    fn put(&mut self, value: Result<Json, AllocError>)
        requires { IfOk value (λ v. has_float (view v) ≡ false) }
    {
        match value {
            Ok(value) => self.insert(value),
            Err(_) => self.is_short = true,
        }
    }

    /// Adds an object.
    pub fn push(&mut self, object: ObjectWriter) {
        self.put(object.finish())
    }

    /// Adds the lines of a printed text.
    fn push_lines(&mut self, alloc: Global, text: &[u8]) {
        match String::from_utf8_lossy(alloc, text) {
            Ok(text) => {
                for line in text.as_str().lines() {
                    self.put(word_value(alloc, line));
                }
            }
            Err(_) => self.is_short = true,
        }
    }

    /// Returns the array if all values were added.
    fn finish(self) -> Result<Json, AllocError>
        ensures { IfOk result (λ value. has_float (view value) ≡ false) }
    {
        if self.is_short {
            Err(AllocError)
        } else {
            Ok(Json::from(self.values))
        }
    }
}
