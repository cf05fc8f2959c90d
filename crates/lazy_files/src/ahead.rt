//! Bytes that are read ahead of what is handed out.
ghost use Rattle.std.specs.Prelude.{◌≡◌, ◌≤◌, ◌↔◌, [], IsTrue, IfOk, min, length, take, drop};

use std::alloc::{AllocError, Global};
use std::marker::Model;

/// The bytes that are read at once.
pub(crate) const PIECE: usize = 65_536;

/// A piece of an input, of which a front was handed out. Contracts see the bytes that weren't.
#[derive(Drop)]
pub(crate) struct Ahead {
    bytes: Vec<u8>,
    given: usize,
    held: usize,
}

impl Model for Ahead {
    ghost use Rattle.std.specs.Prelude.{◌≤◌, List, ℕ, length, take, drop};

    ghost Value = { List ℕ };

    ghost view = { λ a. drop a.given (take a.held a.bytes.items) };

    ghost invariant = { λ a. (a.given ≤ a.held) × (a.held ≤ length a.bytes.items) };
}

impl Ahead {
    /// Nothing is read, and there is no room to read a piece.
    pub(crate) fn new(alloc: Global) -> Ahead
        ensures { result ≡ [] }
    {
        Ahead {
            bytes: Vec::new(alloc),
            given: 0,
            held: 0,
        }
    }

    /// Nothing is read, and there is room for a piece.
    pub(crate) fn with_room(alloc: Global) -> Result<Ahead, AllocError>
        ensures { IfOk result (λ a. a ≡ []) }
    {
        Ok(Ahead {
            bytes: vec![in alloc; 0u8; PIECE]?,
            given: 0,
            held: 0,
        })
    }

    /// Whether so many bytes are there.
    #[inline(always)]
    pub(crate) fn has(&self, count: usize) -> bool
        ensures { IsTrue result ↔ (count ≤ length self.now) }
    {
        count <= self.held - self.given
    }

    /// Hands out bytes, as many as there is room for.
    #[inline(always)]
    pub(crate) fn give(&mut self, buf: &mut [u8]) -> usize
        ensures count { result ≡ min (length buf.old) (length self.old) }
        ensures same { length buf.new ≡ length buf.old }
        ensures bytes { take result buf.new ≡ take result self.old }
        ensures rest { self.new ≡ drop result self.old }
    {
        let count = buf.len().min(self.held - self.given);
        let end = self.given + count;
        buf[..count].copy_from_slice(&self.bytes[self.given..end]);
        self.given = end;
        count
    }

    /// The bytes that weren't handed out.
    pub(crate) fn waiting(&self) -> &[u8]
        ensures { result.now ≡ self.now }
    {
        &self.bytes[self.given..self.held]
    }

    /// The room, into the front of which the next piece is read. What was there is let go.
    pub(crate) fn room(&mut self) -> &mut [u8] {
        self.given = 0;
        self.held = 0;
        self.bytes.as_mut_slice()
    }

    /// The piece that was read has so many bytes.
    pub(crate) fn hold(&mut self, count: usize) {
        self.given = 0;
        self.held = count.min(self.bytes.len());
    }
}
