//! Bytes up to a fixed number, with their memory taken beforehand.

ghost use Rattle.std.specs.Prelude.{◌≡◌, ◌<◌, ◌++◌, ◌∷◌, [], length, IfOk};

use crate::byte_string::Bytes;
use crate::memory::NoMemory;
use std::alloc::Global;
use std::marker::Model;

/// Bytes that are gathered one after the other, at most `ROOM` of them, which contracts see as a list. The memory for
/// them is reserved when it is made, so a push takes none.
#[derive(Drop)]
pub struct Buffer<const ROOM: usize> {
    items: Vec<u8>,
}

impl<const ROOM: usize> Model for Buffer<ROOM> {
    ghost use Rattle.std.specs.Prelude.{ℕ, List, ◌≤◌, vec_capacity};

    ghost Value = { List ℕ };

    ghost view = { λ b. b.items.items };

    ghost invariant = { λ b. ROOM ≤ vec_capacity b.items };
}

impl<const ROOM: usize> Buffer<ROOM> {
    /// No bytes yet, with room for `ROOM` of them.
    pub fn new(alloc: Global) -> Result<Buffer<ROOM>, NoMemory>
        ensures { IfOk result (λ buffer. buffer ≡ []) }
    {
        let items = Vec::with_capacity(alloc, ROOM)?;
        Ok(Buffer { items })
    }

    /// Appends a byte. There is room for it, so it takes no memory.
    pub fn push(&mut self, byte: u8)
        requires { length self.old < ROOM }
        ensures { self.new ≡ self.old ++ byte ∷ [] }
    {
        self.items.push_reserved(byte);
    }

    /// Empties it. The room stays.
    pub fn clear(&mut self)
        ensures { self.new ≡ [] }
    {
        self.items.clear();
    }

    /// Lends the bytes.
    pub fn as_slice(&self) -> &[u8]
        ensures { result.now ≡ self.now }
    {
        self.items.as_slice()
    }

    /// The number of bytes.
    pub fn len(&self) -> usize
        ensures { result ≡ length self.now }
    {
        self.items.len()
    }

    /// An equal text of bytes.
    pub fn copy(&self, alloc: Global) -> Result<Bytes, NoMemory>
        ensures { IfOk result (λ bytes. bytes ≡ self.now) }
    {
        let items = self.items.as_slice().to_vec(alloc)?;
        Ok(Bytes::from_vec(items))
    }
}
