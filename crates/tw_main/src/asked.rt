//! Arguments that are read, once, before a file is opened.

use std::alloc::{AllocError, Global};
use tw_cli::{NoOrder, read_order};
use tw_order::Order;

/// The arguments of a session, and what they give.
#[derive(Drop)]
pub struct Asked {
    pub words: Vec<String>,
    pub order: Result<Order, NoOrder>,
}

impl Asked {
    /// Reads arguments: these first words and the others.
    pub fn new(alloc: Global, first: &[&str], others: &[String]) -> Result<Asked, AllocError> {
        let mut words = Vec::new(alloc);
        for word in first {
            words.push(String::from_str(alloc, *word)?)?;
        }
        for word in others {
            words.push(word.clone()?)?;
        }
        let order = read_order(alloc, &words);
        Ok(Asked { words, order })
    }

    /// Returns the same for a program that is assembly text if `is_text` says so.
    pub fn of_format(self, is_text: bool) -> Asked {
        let Asked { words, order } = self;
        match order {
            Ok(order) if is_text => Asked {
                words,
                order: Ok(order.of_text()),
            },
            order => Asked { words, order },
        }
    }
}

/// Returns how arguments are read if a run is drawn, if that is so and they can be; otherwise how they are read.
pub fn asked_if(draws_run: bool, asked: Asked, drawn: Option<Asked>) -> Asked {
    if !draws_run {
        return asked;
    }
    match drawn {
        Some(drawn) => drawn,
        None => asked,
    }
}
