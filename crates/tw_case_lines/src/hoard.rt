//! Memory that is withheld from other code.

use crate::complaint::Complaint;
use std::alloc::{AllocError, Global};

/// More pieces of the largest size than a process has addresses for.
const MOST: usize = 200_000;

/// `malloc` keeps freed pieces of up to this size in lists by size, and reuses each only for a request of its own size.
const KEPT_SIZES: usize = 1040;

/// A piece of free addresses that is never held all the time, so that `leave` finds a part of it.
const SPARE: usize = 1 << 30;

/// Allocated pieces of memory that are never touched, so that they take only addresses. While all are held, an allocation fails, and so does a new
/// thread, since it needs a stack.
#[derive(Drop)]
pub struct Hoard {
    pieces: Vec<Vec<u8>>,
    /// How many of the pieces are always held.
    large: usize,
}

impl Hoard {
    /// Allocates as many large pieces as possible, except one.
    pub fn new(alloc: Global) -> Result<Hoard, Complaint> {
        let spare: Vec<u8> = Vec::with_capacity(alloc, SPARE)?;
        let hoard = Hoard::beside_spare(alloc);
        drop(spare);
        hoard
    }

    /// Allocates as many large pieces as possible, while another piece is held that stays free afterwards.
    fn beside_spare(alloc: Global) -> Result<Hoard, Complaint> {
        let mut hoard = Hoard {
            pieces: Vec::with_capacity(alloc, MOST)?,
            large: 0,
        };
        hoard.take(alloc, 1 << 40, 1 << 30)?;
        hoard.large = hoard.pieces.len();
        Ok(hoard)
    }

    /// Allocates pieces of memory of these sizes, the largest first, until an allocation of the least size fails. Complains if
    /// there are too many pieces to keep.
    pub fn take(&mut self, alloc: Global, largest: usize, least: usize) -> Result<(), Complaint> {
        let mut size = largest;
        for _ in 0..MOST {
            if size < least {
                return Ok(());
            }
            match Vec::with_capacity(alloc, size) {
                Ok(piece) => self.keep(piece)?,
                Err(_) if size > KEPT_SIZES => size /= 2,
                Err(_) => size = size.saturating_sub(16),
            }
        }
        Err(Complaint::ManyPieces)
    }

    /// Keeps a piece of memory in the hoard. Complains if it has too many to keep.
    fn keep(&mut self, piece: Vec<u8>) -> Result<(), Complaint> {
        match self.pieces.push(piece) {
            Ok(()) => Ok(()),
            Err(_) => Err(Complaint::ManyPieces),
        }
    }

    /// Allocates all memory except a piece of `bytes` bytes. Complains if there isn't such a piece.
    pub fn leave(&mut self, alloc: Global, bytes: usize) -> Result<(), Complaint> {
        let left: Result<Vec<u8>, AllocError> = Vec::with_capacity(alloc, bytes);
        self.take(alloc, 1 << 30, 16)?;
        match left {
            Ok(_) => Ok(()),
            Err(_) => Err(Complaint::NotLeft),
        }
    }

    /// Frees all pieces except the large ones.
    pub fn relieve(&mut self) {
        self.pieces.truncate(self.large);
    }
}
