// Placing: repeatedly the entry whose two growths differ most, until all are placed.
ghost use Rattle.std.specs.Prelude.{◌≡◌, ◌+◌, ◌<◌, length};
ghost use Rattle.split.specs.Split.{Groups};

use crate::filling::Nine;
use crate::places::Places;
use crate::seeds::Seeds;
use crate::side::Side;
use ground::Box;
use std::marker::Model;

#[derive(Clone, Copy)]
pub struct Sides {
    pub first: Side,
    pub second: Side,
    left: Places,
}

impl Model for Sides {
    ghost Value = { Groups };

    ghost view = { λ s. record { first = s.first; second = s.second; unplaced = s.left } };

    ghost invariant = { λ s. length s.first.members + length s.second.members + length s.left ≡ 9 };

    ghost inverse = { λ g. record { first = g.first; second = g.second; left = g.unplaced } };
}

// One of the unplaced, by how much either group grows with it, and by how much these differ.
#[derive(Clone, Copy)]
pub struct Choice {
    pub at: usize,
    pub first: u64,
    pub second: u64,
    pub differ: u64,
}

impl Choice {
    ghost use Rattle.std.specs.Prelude.{cond, ltb};

    // The later one only if its growths differ more.
    fn or_later(self, later: Choice) -> Choice
        ensures { result ≡ cond (ltb self.differ later.differ) later self }
    {
        if self.differ < later.differ {
            later
        } else {
            self
        }
    }
}

impl Sides {
    ghost use Rattle.std.specs.Prelude.{get_or};
    ghost use Rattle.split.specs.Split.{box_at, seeds, begin, place, place_all};
    ghost use Rattle.split.specs.Working.{pair_of, choice_of, chosen, to_second, Onward};

    pub fn begun(boxes: &[Box; Nine::ENTRIES], pair: Seeds) -> Sides
        requires { pair_of pair ≡ seeds boxes.now }
        ensures { result ≡ begin boxes.now }
    {
        let mut left = Places::all();
        left.remove(pair.second);
        left.remove(pair.first);
        Sides {
            first: Side::begun(boxes, pair.first),
            second: Side::begun(boxes, pair.second),
            left,
        }
    }

    fn choice(&self, boxes: &[Box; Nine::ENTRIES], at: usize) -> Choice
        requires { at < length self.now.unplaced }
        ensures { result ≡ choice_of self.now (box_at boxes.now (get_or self.now.unplaced at 0)) at }
    {
        let b = boxes[self.left.as_slice()[at]];
        let first = self.first.growth(b);
        let second = self.second.growth(b);
        Choice {
            at,
            first,
            second,
            differ: first.abs_diff(second),
        }
    }

    // The first of the unplaced whose growths differ most.
    fn next(&self, boxes: &[Box; Nine::ENTRIES]) -> Choice
        requires { 0 < length self.now.unplaced }
        ensures { result ≡ chosen boxes.now self.now }
    {
        let mut best = self.choice(boxes, 0);
        for at in 1..self.left.count() {
            best = best.or_later(self.choice(boxes, at));
        }
        best
    }

    // Whether the second group takes it: it grows less; ties: smaller covering size, fewer entries, first group.
    fn second_takes(&self, c: Choice) -> bool
        ensures { result ≡ to_second self.now c }
    {
        let first = &self.first;
        let second = &self.second;
        (c.second, second.size, second.members.count())
            < (c.first, first.size, first.members.count())
    }

    fn place(&mut self, boxes: &[Box; Nine::ENTRIES])
        requires { 0 < length self.old.unplaced }
        ensures { self.new ≡ place boxes.now self.old }
    {
        let c = self.next(boxes);
        let second = self.second_takes(c);
        let i = self.left.remove(c.at);
        if second {
            self.second.take(boxes, i);
        } else {
            self.first.take(boxes, i);
        }
    }

    // One step: a group that needs all that are left to reach 3 gets them; otherwise one is placed. The rules try them in this order.
    fn round(&mut self, boxes: &[Box; Nine::ENTRIES])
        requires { 0 < length self.old.unplaced }
        ensures { Onward boxes.now self.old self.new }
    {
        if self.first.needs_all(&self.left, Side::LEAST) {
            self.first.take_all(&mut self.left);
        } else if self.second.needs_all(&self.left, Side::LEAST) {
            self.second.take_all(&mut self.left);
        } else {
            self.place(boxes);
        }
    }

    // A round may place several, so the turns are not counted before.
    pub fn place_all(&mut self, boxes: &[Box; Nine::ENTRIES])
        ensures { self.new ≡ place_all boxes.now (length self.old.unplaced) self.old }
    {
        while 0 < self.left.count() {
            self.round(boxes);
        }
    }
}
