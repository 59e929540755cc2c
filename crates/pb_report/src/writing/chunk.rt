//! Room for bytes that wait to be written.
ghost use Rattle.std.specs.Prelude.{◌≡◌, ◌+◌, ◌≤◌, ◌++◌, ℕ, List, [], length, take};

use std::marker::Model;

/// The most bytes that wait. Chosen by hand: it keeps the writes few, and takes little of the stack.
pub(crate) const ROOM: usize = 1024;

/// Bytes that wait to be written. Contracts see them as a list.
#[derive(Drop)]
pub(crate) struct Chunk {
    bytes: [u8; ROOM],
    len: usize,
}

impl Model for Chunk {
    ghost Value = { List ℕ };

    ghost view = { λ c. take c.len c.bytes };

    ghost invariant = { λ c. c.len ≤ 1024 };
}

impl Chunk {
    pub(crate) fn new() -> Chunk
        ensures { result ≡ [] }
    {
        Chunk {
            bytes: [0; ROOM],
            len: 0,
        }
    }

    /// The number of bytes for which there is still room.
    pub(crate) fn room(&self) -> usize
        ensures { length self.now + result ≡ 1024 }
    {
        ROOM - self.len
    }

    pub(crate) fn bytes(&self) -> &[u8]
        ensures { result.now ≡ self.now }
    {
        &self.bytes[..self.len]
    }

    pub(crate) fn clear(&mut self)
        ensures { self.new ≡ [] }
    {
        self.len = 0;
    }

    /// Adds bytes for which there is room.
    pub(crate) fn keep(&mut self, bytes: &[u8])
        requires { length self.old + length bytes.now ≤ 1024 }
        ensures { self.new ≡ self.old ++ bytes.now }
    {
        let end = self.len + bytes.len();
        self.bytes[self.len..end].copy_from_slice(bytes);
        self.len = end;
    }
}
