// The line so far, as far as its bytes matter, in fixed memory.
ghost use Rattle.std.specs.Prelude.{◌≡◌, [], ◌++◌, IsTrue, ◌↔◌, length};
ghost use Rattle.counter.specs.Counter.{kept};

use crate::State;
use std::marker::Model;

// The bytes past the line's are 0, so that it may be copied.
#[derive(Clone, Copy)]
pub struct Kept {
    bytes: [u8; State::LINE],
    count: usize,
}

impl Model for Kept {
    ghost use Rattle.std.proofs.Common.{sym};
    ghost use Rattle.std.specs.Prelude.{ℕ, List, length, take};
    ghost use Rattle.counter.specs.LineBuffer.{line_buffer, IsLine, line_length};

    ghost Value = { List ℕ };

    ghost view = { λ k. take k.count k.bytes };

    ghost invariant = { λ k. IsLine k.bytes k.count };

    ghost inverse = { λ line. record { bytes = line_buffer line; count = length line } };

    ghost inverse_ok = { λ k h. λ i. record { bytes = sym h.is i; count = line_length k.bytes k.count h i } };
}

impl Kept {
    pub fn new() -> Kept
        ensures { result ≡ [] }
    {
        Kept {
            bytes: [0; State::LINE],
            count: 0,
        }
    }

    pub fn len(&self) -> usize
        ensures { result ≡ length self.now }
    {
        self.count
    }

    pub fn is_empty(&self) -> bool
        ensures { IsTrue result ↔ self.now ≡ [] }
    {
        self.count == 0
    }

    pub fn as_slice(&self) -> &[u8]
        ensures { result.now ≡ self.now }
    {
        &self.bytes[..self.count]
    }

    pub fn clear(&mut self)
        ensures { self.new ≡ [] }
    {
        *self = Kept::new();
    }

    pub fn push(&mut self, more: &[u8])
        ensures { self.new ≡ kept (self.old ++ more.now) }
    {
        let n = more.len().min(State::LINE - self.count);
        self.bytes[self.count..self.count + n].copy_from_slice(&more[..n]);
        self.count += n;
    }
}
