// Bytes in fixed memory, since a library has no heap.
ghost use Rattle.std.specs.Prelude.{◌≡◌, ◌<◌, ◌≤◌, List, ℕ, [], ◌∷◌, ◌++◌, length, take};

use std::marker::Model;

// At most N bytes, one after another. A contract sees their list.
// Kept: an array and a length, in this one place: for these three functions ArrayVec would be one more crate in the library for C.
#[derive(Drop)]
pub(crate) struct Filled<const N: usize> {
    bytes: [u8; N],
    length: usize,
}

impl<const N: usize> Model for Filled<N> {
    ghost Value = { List ℕ };

    ghost view = { λ filled. take filled.length filled.bytes };

    ghost invariant = { λ filled. filled.length ≤ N };
}

impl<const N: usize> Filled<N> {
    pub(crate) fn new() -> Self
        ensures { result ≡ [] }
    {
        Filled {
            bytes: [0; N],
            length: 0,
        }
    }

    pub(crate) fn push(&mut self, byte: u8)
        requires { length self.old < N }
        ensures { self.new ≡ self.old ++ byte ∷ [] }
    {
        self.bytes[self.length] = byte;
        self.length += 1;
    }

    pub(crate) fn as_slice(&self) -> &[u8]
        ensures { result.now ≡ self.now }
    {
        &self.bytes[..self.length]
    }
}
