// Places of the nine, in some order: at most nine, so that they lie in an array; past their number it is 0.
ghost use Rattle.std.specs.Prelude.{◌≡◌, ℕ, [], ◌∷◌, ◌++◌, ◌+◌, ◌<◌, ◌≤◌, length, get_or};
ghost use Rattle.split.specs.Split.{places, without};

use crate::filling::Nine;
use std::array;
use std::marker::Model;

#[derive(Clone, Copy)]
pub struct Places {
    at: [usize; Nine::ENTRIES],
    count: usize,
}

impl Model for Places {
    ghost use Rattle.std.specs.Prelude.{ℕ, List, length, take};
    ghost use Rattle.split.specs.Room.{ArePlaces, room_of};
    ghost use Rattle.split.specs.RoomLaws.{room_again, count_again};

    ghost Value = { List ℕ };

    ghost view = { λ p. take p.count p.at };

    ghost invariant = { λ p. ArePlaces p.at p.count };

    // Its array is that of its places, so it may be copied.
    ghost inverse = { λ is. record { at = room_of is; count = length is } };

    ghost inverse_ok = { λ p h. λ k. record { at = room_again p.at p.count h k; count = count_again p.at p.count h k } };
}

impl Places {
    pub fn all() -> Places
        ensures { result ≡ places 0 9 }
    {
        Places {
            at: array::from_fn(|i| i),
            count: Nine::ENTRIES,
        }
    }

    pub fn one(i: usize) -> Places
        requires { i < 9 }
        ensures { result ≡ i ∷ [] }
    {
        let mut at = [0; Nine::ENTRIES];
        at[0] = i;
        Places { at, count: 1 }
    }

    pub fn count(&self) -> usize
        ensures { (result ≡ length self.now) × (result ≤ 9) }
    {
        self.count
    }

    pub fn as_slice(&self) -> &[usize]
        ensures same { result.now ≡ self.now }
        ensures within { (k : ℕ) → k < length result.now → get_or result.now k 0 < 9 }
    {
        &self.at[..self.count]
    }

    pub fn push(&mut self, i: usize)
        requires { (length self.old < 9) × (i < 9) }
        ensures { self.new ≡ self.old ++ (i ∷ []) }
    {
        self.at[self.count] = i;
        self.count += 1;
    }

    // Takes over all of the others, in their order.
    pub fn append(&mut self, others: &mut Places)
        requires { length self.old + length others.old ≤ 9 }
        ensures { (self.new ≡ self.old ++ others.old) × (others.new ≡ []) }
    {
        // One by one: a copy within one group of groups would want `memmove` of the program that links the archive.
        let places = &mut self.at;
        for k in 0..others.count {
            places[self.count + k] = others.at[k];
        }
        self.count += others.count;
        others.at = [0; Nine::ENTRIES];
        others.count = 0;
    }

    // Takes one out, and closes up.
    pub fn remove(&mut self, at: usize) -> usize
        requires { at < length self.old }
        ensures { (self.new ≡ without at self.old) × (result ≡ get_or self.old at 0) × (result < 9) }
    {
        let places = &mut self.at;
        let i = places[at];
        places.copy_within(at + 1..self.count, at);
        self.count -= 1;
        places[self.count] = 0;
        i
    }
}
