//! Bytes that are written piece by piece, with one look at the end whether memory sufficed.
#![tactic(auto)]

mod writer;

pub use writer::{Piece, Writer};
