// The seeds: the pair of places that would waste most in one page.
ghost use Rattle.std.specs.Prelude.{◌+◌, ◌<◌, ◌≤◌};
ghost use Rattle.split.specs.Sizes.{most_size};

use crate::covers::{cover_size, sizes_of};
use crate::filling::Nine;
use ground::Box;

// Two places, the size of their covering box and both sizes: the waste is the difference, which may be negative.
#[derive(Clone, Copy)]
pub struct Seeds {
    pub first: usize,
    pub second: usize,
    pub cover: u64,
    pub both: u64,
    ghost ordered: { first < second },
    ghost within: { second < 9 },
    ghost cover_fits: { cover ≤ most_size },
    ghost both_fits: { both ≤ most_size + most_size },
}

impl Seeds {
    ghost use Rattle.std.specs.Prelude.{◌≡◌, cond, ◌-◌, ltb, map};
    ghost use Rattle.ground.specs.Boxes.{size};
    ghost use Rattle.split.specs.Split.{places, pairs_with, most_wasteful, seeds};
    ghost use Rattle.split.specs.Working.{pair_of, pair, Weighed};

    fn weighed(
        boxes: &[Box; Nine::ENTRIES],
        sizes: &[u64; Nine::ENTRIES],
        first: usize,
        second: usize,
    ) -> Seeds
        requires { (first < second) × (second < 9) × (sizes.now ≡ map size boxes.now) }
        ensures { (pair_of result ≡ pair first second) × Weighed boxes.now result }
    {
        Seeds {
            first,
            second,
            cover: cover_size(boxes[first], boxes[second]),
            both: sizes[first] + sizes[second],
        }
    }

    // The other pair if it wastes more. Compared crosswise, in numbers that are never negative.
    fn or_worse(self, other: Seeds) -> Seeds
        ensures { result ≡ cond (ltb (self.cover + other.both) (other.cover + self.both)) other self }
    {
        if self.cover + other.both < other.cover + self.both {
            other
        } else {
            self
        }
    }

    // The worst of this pair and all that have this first place.
    fn or_worse_with(
        self,
        boxes: &[Box; Nine::ENTRIES],
        sizes: &[u64; Nine::ENTRIES],
        first: usize,
    ) -> Seeds
        requires { (first < 9) × (sizes.now ≡ map size boxes.now) × Weighed boxes.now self }
        ensures { (pair_of result ≡ most_wasteful boxes.now (pair_of self) (pairs_with first (places (first + 1) (9 - (first + 1))))) × Weighed boxes.now result }
    {
        let mut worst = self;
        for second in first + 1..Nine::ENTRIES {
            worst = worst.or_worse(Seeds::weighed(boxes, sizes, first, second));
        }
        worst
    }

    pub fn worst(boxes: &[Box; Nine::ENTRIES]) -> Seeds
        ensures { pair_of result ≡ seeds boxes.now }
    {
        let sizes = sizes_of(boxes);
        let mut worst = Seeds::weighed(boxes, &sizes, 0, 1);
        for first in 0..Nine::ENTRIES {
            worst = worst.or_worse_with(boxes, &sizes, first);
        }
        worst
    }
}
