//! A page of XML, to which elements are added.

ghost use Rattle.std.specs.Prelude.{◌++◌, [], codes, decimal};
ghost use Rattle.std.specs.List.{flat_map};
ghost use Rattle.tw_timeline.specs.Page.{HoldsXml};
ghost use Rattle.tw_timeline.specs.Xml.{attribute_text, close_text, escaped, open_text, value_text};
ghost use Rattle.tw_writer.specs.Appended.{IsAppended};

use std::alloc::{AllocError, Global};
use tw_writer::{Piece, Writer};

/// The value of an attribute: a text, which is escaped, or a number.
#[derive(Clone, Copy)]
pub enum Value<'a> {
    Text(&'a [u8]),
    Number(usize),
}

/// An attribute of an element.
#[derive(Clone, Copy)]
pub struct Attribute<'a> {
    pub key: &'a str,
    pub value: Value<'a>,
}

/// Returns an attribute with a word.
pub fn word<'a>(key: &'a str, word: &'a str) -> Attribute<'a> {
    Attribute {
        key,
        value: Value::Text(word.as_bytes()),
    }
}

/// Returns an attribute with a number.
pub fn number<'a>(key: &'a str, number: usize) -> Attribute<'a> {
    Attribute {
        key,
        value: Value::Number(number),
    }
}

/// Returns the attributes of a rectangle.
pub fn rectangle(
    class: &str,
    x: usize,
    y: usize,
    width: usize,
    height: usize,
) -> [Attribute<'_>; 5] {
    [
        word("class", class),
        number("x", x),
        number("y", y),
        number("width", width),
        number("height", height),
    ]
}

/// Returns the attributes of a text: its class, and the place of its first letter.
pub fn labelled(class: &str, x: usize, y: usize) -> [Attribute<'_>; 3] {
    [word("class", class), number("x", x), number("y", y)]
}

/// Returns the attributes of a path.
fn path<'a>(class: &'a str, route: &'a [u8]) -> [Attribute<'a>; 2] {
    [
        word("class", class),
        Attribute {
            key: "d",
            value: Value::Text(route),
        },
    ]
}

/// Returns a text of these pieces.
pub fn text(alloc: Global, pieces: &[Piece<'_>]) -> Writer {
    let mut text = Writer::new(alloc);
    text.put_all(pieces);
    text
}

/// Adds a byte of a text: escaped if it has a meaning in XML, and as `?` if XML doesn't allow it.
fn put_escaped(out: &mut Writer, byte: u8)
    ensures { IsAppended out.old out.new (escaped byte) }
{
    match byte {
        b'<' => out.put("&lt;"),
        b'>' => out.put("&gt;"),
        b'&' => out.put("&amp;"),
        b'"' => out.put("&quot;"),
        b'\n' | 32..=126 => out.put_bytes(&[byte]),
        _ => out.put("?"),
    }
}

/// Adds a text, escaped.
fn put_text(out: &mut Writer, text: &[u8])
    ensures { IsAppended out.old out.new (flat_map escaped text.now) }
{
    for byte in text {
        put_escaped(out, *byte);
    }
}

/// Adds a number.
fn put_number(out: &mut Writer, number: usize)
    ensures { IsAppended out.old out.new (flat_map escaped (decimal number)) }
{
    out.put_decimal(number)
}

/// Adds the value of an attribute.
fn put_value(out: &mut Writer, value: Value<'_>)
    ensures { IsAppended out.old out.new (value_text value.entry) }
{
    match value {
        Value::Text(text) => put_text(out, text),
        Value::Number(number) => put_number(out, number),
    }
}

/// Adds an attribute, after a space.
#[tactic(auto, unfolding(crate::specs::Xml::attribute_text))]
fn put_attribute(out: &mut Writer, attribute: Attribute<'_>)
    ensures { IsAppended out.old out.new (attribute_text attribute.entry) }
{
    out.put(" ");
    put_text(out, attribute.key.as_bytes());
    out.put("=\"");
    put_value(out, attribute.value);
    out.put("\"");
}

/// Adds attributes, each after a space.
fn put_attributes(out: &mut Writer, attributes: &[Attribute<'_>])
    ensures { IsAppended out.old out.new (flat_map attribute_text attributes.now) }
{
    for attribute in attributes {
        put_attribute(out, *attribute);
    }
}

/// Adds the start tag of an element.
#[tactic(auto, unfolding(crate::specs::Xml::open_text))]
fn put_open(out: &mut Writer, name: &str, attributes: &[Attribute<'_>])
    ensures { IsAppended out.old out.new (open_text name.now attributes.now) }
{
    out.put("<");
    put_text(out, name.as_bytes());
    put_attributes(out, attributes);
    out.put(">");
}

/// Adds the end tag of an element.
#[tactic(auto, unfolding(crate::specs::Xml::close_text))]
fn put_close(out: &mut Writer, name: &str)
    ensures { IsAppended out.old out.new (close_text name.now) }
{
    out.put("</");
    put_text(out, name.as_bytes());
    out.put(">\n");
}

/// Adds an element that contains words.
fn put_words(out: &mut Writer, name: &str, attributes: &[Attribute<'_>], words: &[u8])
    ensures { IsAppended out.old out.new (open_text name.now attributes.now ++ (flat_map escaped words.now ++ close_text name.now)) }
{
    put_open(out, name, attributes);
    put_text(out, words);
    put_close(out, name);
}

/// Adds an element that contains words, and a title, which is shown as its tooltip.
fn put_titled(out: &mut Writer, name: &str, attributes: &[Attribute<'_>], title: &[u8])
    ensures { IsAppended out.old out.new (open_text name.now attributes.now ++ ((open_text (codes "title") [] ++ (flat_map escaped title.now ++ close_text (codes "title"))) ++ close_text name.now)) }
{
    put_open(out, name, attributes);
    put_words(out, "title", &[], title);
    put_close(out, name);
}

/// XML to which elements are added. That an allocation failed is noted, and reported by `finish`.
#[derive(Drop)]
pub struct Page {
    pub alloc: Global,
    text: Writer,
    ghost form: { HoldsXml text },
}

impl Page {
    ghost use Rattle.std.specs.Prelude.{IfOk};
    ghost use Rattle.tw_timeline.specs.Page.{HoldsXml};
    ghost use Rattle.tw_timeline.specs.Xml.{IsPrinted, IsXml};

    /// Makes a page without elements.
    #[tactic(auto, using(crate::proofs::Forests::empty_held))]
    pub fn new(alloc: Global) -> Page {
        Page {
            alloc,
            text: Writer::new(alloc),
        }
    }

    /// Adds an empty element.
    pub fn put(&mut self, name: &str, attributes: &[Attribute<'_>]) {
        put_words(&mut self.text, name, attributes, &[]);
    }

    /// Adds an element that contains words.
    #[tactic(auto, using(crate::proofs::Forests::words_added))]
    pub fn put_words(&mut self, name: &str, attributes: &[Attribute<'_>], words: &[u8]) {
        put_words(&mut self.text, name, attributes, words);
    }

    /// Adds an element that contains words that were written.
    #[tactic(auto, using(crate::proofs::Forests::words_added, crate::proofs::Forests::same_held))]
    pub fn put_written(&mut self, name: &str, attributes: &[Attribute<'_>], words: &Writer) {
        put_words(&mut self.text, name, attributes, &words.bytes);
        self.text.note_of(words);
    }

    /// Adds an element with a title, which is shown as its tooltip.
    #[tactic(auto, using(crate::proofs::Forests::titled_added, crate::proofs::Forests::same_held))]
    pub fn put_titled(&mut self, name: &str, attributes: &[Attribute<'_>], title: &Writer) {
        put_titled(&mut self.text, name, attributes, &title.bytes);
        self.text.note_of(title);
    }

    /// Adds a path of this class and route.
    #[tactic(auto, using(crate::proofs::Forests::same_held))]
    pub fn put_path(&mut self, class: &str, route: &Writer) {
        self.put("path", &path(class, &route.bytes));
        self.text.note_of(route);
    }

    /// Adds a path of this class and route, with a title.
    #[tactic(auto, using(crate::proofs::Forests::same_held))]
    pub fn put_titled_path(&mut self, class: &str, route: &Writer, title: &Writer) {
        self.put_titled("path", &path(class, &route.bytes), title);
        self.text.note_of(route);
    }

    /// Notes that an element couldn't be made.
    #[tactic(auto, using(crate::proofs::Forests::same_held))]
    pub fn fail(&mut self) {
        self.text.fail();
    }

    /// Returns an element that contains all of the page.
    fn within(self, name: &str, attributes: &[Attribute<'_>]) -> Page {
        let mut whole = Writer::new(self.alloc);
        put_open(&mut whole, name, attributes);
        whole.put_bytes(&self.text.bytes);
        put_close(&mut whole, name);
        whole.note_of(&self.text);
        Page {
            alloc: self.alloc,
            text: whole,
        }
    }

    /// Adds an element that contains all of another page.
    pub fn put_page(&mut self, name: &str, attributes: &[Attribute<'_>], page: Page) {
        let inside = page.within(name, attributes);
        self.text.put_bytes(&inside.text.bytes);
        self.text.note_of(&inside.text);
    }

    /// Returns the page's text, if all of it was written.
    pub fn finish(self) -> Result<Vec<u8>, AllocError>
        ensures xml { IfOk result (λ text. IsXml text.items) }
        ensures printed { IfOk result (λ text. IsPrinted text.items) }
    {
        self.text.finish()
    }
}
