//! Banks of texts.

ghost use Rattle.std.specs.Prelude.{◌≡◌, ◌<◌, ℕ, [], length, replicate, slice_index_or, slice_set, IfOk, OnErr, OnOk};
ghost use Rattle.tw_types.specs.Text.{IsText};
ghost use Rattle.tw_frame.specs.Slots.{text_in};

use std::alloc::{AllocError, Global};
use std::marker::Model;
use std::sync::Arc;
use tw_types::Text;

/// A slot of a bank. A text that was set is its own, and its copies share one.
#[derive(Drop)]
enum Slot {
    Empty,
    Own(Text),
    Shared(Arc<Text>),
}

impl Slot {
    /// Returns the text of a slot in a context's bank of texts.
    fn as_str(&self) -> &str
        ensures is { result.now ≡ text_in self.now }
        ensures text { IsText result.now }
    {
        match self {
            Slot::Empty => "",
            Slot::Own(text) => text.as_str(),
            Slot::Shared(text) => text.as_str(),
        }
    }

    /// Copies a slot of a context's bank of texts. Copies the bytes of its own text only.
    fn try_clone(&self, alloc: Global) -> Result<Slot, AllocError>
        ensures { IfOk result (λ copy. text_in copy ≡ text_in self.now) }
    {
        match self {
            Slot::Empty => Ok(Slot::Empty),
            Slot::Own(text) => Ok(Slot::Shared(Arc::new(alloc, text.try_clone(alloc)?)?)),
            Slot::Shared(text) => Ok(Slot::Shared(Arc::try_clone(text)?)),
        }
    }
}

/// Texts by their numbers. A copy of a bank has its own slots, and shares the texts. Only those that were set are copied.
#[derive(Drop)]
pub(crate) struct Texts {
    slots: Vec<Slot>,
}

impl Model for Texts {
    ghost use Rattle.std.specs.Prelude.{List, ℕ, map as each};
    ghost use Rattle.tw_frame.specs.Slots.{text_in};

    ghost Value = { List (List ℕ) };

    ghost view = { λ t. each text_in t.slots.items };
}

impl Texts {
    /// Returns a context's bank of texts without any, and without memory.
    pub(crate) fn none(alloc: Global) -> Texts
        ensures { result ≡ [] }
    {
        Texts {
            slots: Vec::new(alloc),
        }
    }

    /// Makes a context's bank of `count` empty texts.
    pub(crate) fn blank(alloc: Global, count: usize) -> Result<Texts, AllocError>
        ensures blank { IfOk result (λ texts. texts ≡ replicate count []) }
        ensures some { OnErr result (0 < count) }
    {
        let mut slots = Vec::with_capacity(alloc, count)?;
        for _index in 0..count {
            slots.push(Slot::Empty)?;
        }
        Ok(Texts { slots })
    }

    /// Returns the number of texts in a context's bank.
    pub(crate) fn len(&self) -> usize
        ensures { result ≡ length self.now }
    {
        self.slots.len()
    }

    /// Returns the bytes of a text in a context's bank.
    pub(crate) fn bytes(&self, index: usize) -> &[u8]
        requires { index < length self.now }
        ensures is { result.now ≡ slice_index_or self.now index result.now }
        ensures text { IsText result.now }
    {
        self.text(index).as_bytes()
    }

    /// Returns a text in a context's bank.
    pub(crate) fn text(&self, index: usize) -> &str
        requires { index < length self.now }
        ensures is { result.now ≡ slice_index_or self.now index result.now }
        ensures text { IsText result.now }
    {
        self.slots[index].as_str()
    }

    /// Replaces one text in a context's bank.
    pub(crate) fn set(&mut self, index: usize, text: Text)
        requires { index < length self.old }
        ensures { self.new ≡ slice_set self.old index text }
    {
        self.slots[index] = Slot::Own(text);
    }

    /// Copies a context's bank of texts.
    pub(crate) fn try_clone(&self, alloc: Global) -> Result<Texts, AllocError>
        ensures copy { IfOk result (λ copy. copy ≡ self.now) }
        ensures some { OnErr result (0 < length self.now) }
    {
        let mut slots = Vec::with_capacity(alloc, self.len())?;
        for index in 0..self.len() {
            slots.push(self.slots[index].try_clone(alloc)?)?;
        }
        Ok(Texts { slots })
    }

    /// Makes a context's bank one of `count` empty texts.
    pub(crate) fn begin(&mut self, alloc: Global, count: usize) -> Result<(), AllocError>
        ensures blank { OnOk result (self.new ≡ replicate count []) }
        ensures refused { OnErr result (self.new ≡ self.old) }
        ensures some { OnErr result (0 < count) }
    {
        if self.len() > 0 || count > 0 {
            *self = Texts::blank(alloc, count)?;
        }
        Ok(())
    }

    /// Makes a context's bank of texts a copy of another's.
    #[inline(always)]
    pub(crate) fn copy_from(&mut self, alloc: Global, others: &Texts) -> Result<(), AllocError>
        ensures copy { OnOk result (self.new ≡ others.now) }
        ensures refused { OnErr result (self.new ≡ self.old) }
        ensures some { OnErr result (0 < length others.now) }
    {
        if self.len() > 0 || others.len() > 0 {
            *self = others.try_clone(alloc)?;
        }
        Ok(())
    }
}
