// A question as a sieve: its tests on the boxes of entries where they lie, eight words at once.
// It belongs to the pages: like them it knows the order of a box's words. Side by side, the tests of a box become one comparison of eight words.
#![tactic(auto)]

ghost use Rattle.std.specs.Prelude.{◌≡◌};
ghost use Rattle.ground.specs.Boxes.{touches, covers};
ghost use Rattle.sieve.specs.Sieve.{each_at_most, passes, Words};

use ground::Box;
use pages::{Entry, EntryAt};
use std::marker::Model;

// Words that are tested at once.
pub const ROW: usize = 8;

// The least and the greatest that eight words may be.
#[derive(Clone, Copy)]
pub struct Rows {
    pub least: [u16; ROW],
    pub greatest: [u16; ROW],
}

// The rows that the words of a box pass if it touches the question, and if the question covers it. A clause sees the question.
#[derive(Clone, Copy)]
pub struct Sieve {
    touching: Rows,
    covering: Rows,
}

impl Model for Sieve {
    ghost use Rattle.std.proofs.Common.{sym};
    ghost use Rattle.ground.specs.declared.boxes.Box.{Box};
    ghost use Rattle.sieve.specs.Sieve.{question_of, touching_rows, covering_rows, IsSieve};

    ghost Value = { Box };

    ghost view = { λ s. question_of s.touching };

    ghost invariant = { λ s. IsSieve s.touching s.covering };

    // Its rows are those of its question, so it may be copied.
    ghost inverse = { λ q. record { touching = touching_rows q; covering = covering_rows q } };

    ghost inverse_ok = { λ s h. λ i. record { touching = sym h.touches i; covering = sym h.covers i } };
}

// Whether each word is at least the one beside it. No early exit: so the machine compares eight words at once.
fn each_at_least(words: &[u16], least: &[u16]) -> bool
    ensures { result ≡ each_at_most least.now words.now }
{
    least
        .iter()
        .zip(words)
        .fold(true, |ok, (least, word)| ok & (*least <= *word))
}

// Whether each word is at most the one beside it.
fn each_at_most(low: &[u16], high: &[u16]) -> bool
    ensures { result ≡ each_at_most low.now high.now }
{
    low.iter()
        .zip(high)
        .fold(true, |ok, (low, high)| ok & (*low <= *high))
}

impl Rows {
    fn pass(&self, words: &[u16]) -> bool
        ensures { (result ≡ passes self.now words.now) × Words words.now }
    {
        each_at_least(words, &self.least) & each_at_most(words, &self.greatest)
    }
}

impl Sieve {
    pub fn of(q: Box) -> Sieve
        ensures { result ≡ q }
    {
        let top = u16::MAX;
        Sieve {
            touching: Rows {
                least: [0, q.east.low, 0, q.north.low, 0, q.day.low, 0, 0],
                greatest: [
                    q.east.high,
                    top,
                    q.north.high,
                    top,
                    q.day.high,
                    top,
                    top,
                    top,
                ],
            },
            covering: Rows {
                least: [q.east.low, 0, q.north.low, 0, q.day.low, 0, 0, 0],
                greatest: [
                    top,
                    q.east.high,
                    top,
                    q.north.high,
                    top,
                    q.day.high,
                    top,
                    top,
                ],
            },
        }
    }

    // Whether the box of an entry touches the question.
    pub fn touches_place(&self, entry: &EntryAt) -> bool
        ensures { result ≡ touches self.now entry.now.place }
    {
        let words = entry.words();
        self.touching.pass(&words[..ROW])
    }

    // Whether the question covers it.
    pub fn covers_place(&self, entry: &EntryAt) -> bool
        ensures { result ≡ covers self.now entry.now.place }
    {
        let words = entry.words();
        self.covering.pass(&words[..ROW])
    }

    // Whether its strongest box touches the question.
    pub fn touches_strongest(&self, entry: &EntryAt) -> bool
        ensures { result ≡ touches self.now entry.now.strongest }
    {
        let words = entry.words();
        self.touching
            .pass(&words[Entry::STRONGEST..Entry::STRONGEST + ROW])
    }
}
