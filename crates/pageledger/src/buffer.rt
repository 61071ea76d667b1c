// Bytes that are gathered, one after the other.
ghost use Rattle.std.specs.Prelude.{◌≡◌, ℕ, ◌≤◌, List, [], ◌∷◌, ◌++◌, take};

use std::io::Write;
use std::marker::Model;

// Memory for N bytes; the first `length` are gathered.
// Stays: bytes with a length and no Vec: no heap, fixed memory (docs/DECISIONS.md, 60).
#[derive(Drop)]
pub(crate) struct Buffer<const N: usize> {
    pub(crate) bytes: [u8; N],
    pub(crate) length: usize,
}

// Clauses see the bytes that are gathered.
impl<const N: usize> Model for Buffer<N> {
    ghost Value = { List ℕ };

    ghost view = { λ b. take b.length b.bytes };

    ghost invariant = { λ b. b.length ≤ N };
}

impl<const N: usize> Buffer<N> {
    pub(crate) fn new() -> Self
        ensures { result ≡ [] }
    {
        Buffer {
            bytes: [0; N],
            length: 0,
        }
    }

    pub(crate) fn bytes(&self) -> &[u8]
        ensures { result.now ≡ self.now }
    {
        &self.bytes[..self.length]
    }

    // One byte more; where there is no room, nothing.
    pub(crate) fn push(&mut self, b: u8)
        ensures { self.new ≡ take N (self.old ++ b ∷ []) }
    {
        if self.length < N {
            self.bytes[self.length] = b;
            self.length += 1;
        }
    }

    pub(crate) fn clear(&mut self)
        ensures { self.new ≡ [] }
    {
        self.length = 0;
    }

    // Writes the bytes out, and has none left. What can't be written is passed over: the script is run to its end all the same.
    pub(crate) fn write_to<W: Write>(&mut self, output: &mut W)
        ensures { self.new ≡ [] }
    {
        let _written = output.write_all(self.bytes());
        self.clear();
    }
}
