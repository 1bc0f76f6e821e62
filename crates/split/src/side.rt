// A group as it grows: its members in order of placing, the box that covers them, and that box's size.
ghost use Rattle.std.specs.Prelude.{◌≡◌, [], ◌<◌, ◌+◌, ◌≤◌, leb, length};
ghost use Rattle.split.specs.Split.{begun, takes, takes_all, growth};

use crate::covers::cover_size;
use crate::filling::Nine;
use crate::places::Places;
use ground::Box;
use std::marker::Model;

#[derive(Clone, Copy)]
pub struct Side {
    pub members: Places,
    pub cover: Box,
    pub size: u64,
}

impl Model for Side {
    ghost use Rattle.std.specs.Prelude.{◌≡◌};
    ghost use Rattle.std.proofs.Common.{sym};
    ghost use Rattle.ground.specs.Boxes.{size as box_size};
    ghost use Rattle.split.specs.Split.{Group};

    ghost Value = { Group };

    ghost view = { λ s. record { members = s.members; cover = s.cover } };

    ghost invariant = { λ s. s.size ≡ box_size s.cover };

    ghost inverse = { λ g. record { members = g.members; cover = g.cover; size = box_size g.cover } };

    ghost inverse_ok = { λ s h. λ i. record { members = s.members; cover = s.cover; size = sym h i } };
}

impl Side {
    // A group that needs all that are left to reach this gets them.
    pub const LEAST: usize = 3;

    pub fn begun(boxes: &[Box; Nine::ENTRIES], i: usize) -> Side
        requires { i < 9 }
        ensures { result ≡ begun boxes.now i }
    {
        Side {
            members: Places::one(i),
            cover: boxes[i],
            size: boxes[i].size(),
        }
    }

    pub fn needs_all(&self, left: &Places, least: usize) -> bool
        ensures { result ≡ leb (length self.now.members + length left.now) least }
    {
        self.members.count() + left.count() <= least
    }

    pub fn growth(&self, b: Box) -> u64
        ensures { result ≡ growth self.now b }
    {
        cover_size(self.cover, b) - self.size
    }

    pub fn take(&mut self, boxes: &[Box; Nine::ENTRIES], i: usize)
        requires { (i < 9) × (length self.old.members < 9) }
        ensures { self.new ≡ takes boxes.now self.old i }
    {
        self.members.push(i);
        self.cover = self.cover.join(boxes[i]);
        self.size = self.cover.size();
    }

    // Nothing is compared with the covering box any more.
    pub fn take_all(&mut self, left: &mut Places)
        requires { length self.old.members + length left.old ≤ 9 }
        ensures { (self.new ≡ takes_all self.old left.old) × (left.new ≡ []) }
    {
        self.members.append(left);
    }
}
