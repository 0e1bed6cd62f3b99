//! Room for the bytes of a line, of its frame or of its answer, filled from the front, that needs no allocation.
ghost use Rattle.std.specs.Prelude.{◌≡◌, ℕ, ◌-◌, ◌≤◌, List, [], ◌∷◌, ◌++◌, length, take, drop, replicate};

use std::marker::Model;

/// Up to `ROOM` bytes. The room behind them is zeros, so that nothing stays of what is let go, as a vector's spare room might keep it.
#[derive(Drop)]
pub struct Buffer<const ROOM: usize> {
    bytes: [u8; ROOM],
    len: usize,
}

// Clauses see the bytes held.
impl<const ROOM: usize> Model for Buffer<ROOM> {
    ghost Value = { List ℕ };

    ghost view = { λ b. take b.len b.bytes };

    ghost invariant = { λ b. (b.len ≤ ROOM) × (drop b.len b.bytes ≡ replicate (ROOM - b.len) 0) };
}

impl<const ROOM: usize> Buffer<ROOM> {
    /// An empty buffer.
    pub fn new() -> Self
        ensures { result ≡ [] }
    {
        Buffer {
            bytes: [0; ROOM],
            len: 0,
        }
    }

    /// The bytes held.
    pub fn as_slice(&self) -> &[u8]
        ensures held { result.now ≡ self.now }
        ensures fits { length result.now ≤ ROOM }
    {
        &self.bytes[..self.len]
    }

    /// The room that is left, of which all is zeros.
    pub fn spare(&self) -> &[u8]
        ensures { result.now ≡ replicate (ROOM - length self.now) 0 }
    {
        let room = &self.bytes[..];
        &room[self.len..]
    }

    /// Adds a byte behind those held, where there is room.
    pub fn push(&mut self, byte: u8)
        ensures { self.new ≡ take ROOM (self.old ++ byte ∷ []) }
    {
        if self.len < ROOM {
            self.bytes[self.len] = byte;
            self.len += 1;
        }
    }

    /// Adds bytes behind those held, as many as there is room for.
    pub fn extend(&mut self, more: &[u8])
        ensures { self.new ≡ take ROOM (self.old ++ more.now) }
    {
        let n = more.len().min(ROOM - self.len);
        let end = self.len + n;
        let room = &mut self.bytes[..];
        room[self.len..end].copy_from_slice(&more[..n]);
        self.len = end;
    }

    /// Lets go of the bytes held, and writes zeros over them.
    pub fn clear(&mut self)
        ensures { self.new ≡ [] }
    {
        self.bytes[..self.len].fill(0);
        self.len = 0;
    }
}
