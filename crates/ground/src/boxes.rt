// Boxes: three closed ranges, both ends inside. Every function answers for every six numbers, legal or not.
ghost use Rattle.std.specs.Prelude.{◌≡◌};
ghost use Rattle.ground.specs.Boxes.{holds, touches_on, covers_on, length_on, join_on, legal_on};
ghost use Rattle.ground.specs.Boxes.{touches, covers, size, join, legal};
ghost use Rattle.ground.specs.Cutting.{covers_one_end, rest_on, cut};

#[derive(Clone, Copy, Debug, Default, PartialEq, Eq)]
pub struct Range {
    pub low: u16,
    pub high: u16,
}

#[derive(Clone, Copy, Debug, Default, PartialEq, Eq)]
pub struct Box {
    pub east: Range,
    pub north: Range,
    pub day: Range,
}

// What a candidate does to a box that is being recorded.
#[derive(Clone, Copy, Debug, PartialEq, Eq)]
pub enum Cut {
    // The candidate covers the box whole.
    Covered,
    // One end of one axis is cut away; this is left.
    Left(Box),
    Unchanged,
}

impl Range {
    pub fn holds(self, x: u16) -> bool
        ensures { result ≡ holds self x }
    {
        (self.low <= x) & (x <= self.high)
    }

    pub fn touches(self, other: Range) -> bool
        ensures { result ≡ touches_on self other }
    {
        (self.low <= other.high) & (other.low <= self.high)
    }

    pub fn covers(self, other: Range) -> bool
        ensures { result ≡ covers_on self other }
    {
        (self.low <= other.low) & (other.high <= self.high)
    }

    // How many whole numbers the range has: none if its low end is above its high end.
    pub fn length(self) -> u64
        ensures { result ≡ length_on self }
    {
        let past = self.high as u64 + 1;
        past.saturating_sub(self.low as u64)
    }

    pub fn join(self, other: Range) -> Range
        ensures { result ≡ join_on self other }
    {
        Range {
            low: self.low.min(other.low),
            high: self.high.max(other.high),
        }
    }

    pub fn legal(self, limit: u16) -> bool
        ensures { result ≡ legal_on limit self }
    {
        (self.low <= self.high) & (self.high <= limit)
    }

    // Whether this range, a candidate's, covers exactly one end of another.
    fn covers_one_end(self, b: Range) -> bool
        ensures { result ≡ covers_one_end self b }
    {
        self.holds(b.low) != self.holds(b.high)
    }

    // What it then leaves of the other; all of it where it does not touch that, or covers both ends or none.
    fn leaves(self, b: Range) -> Range
        ensures { result ≡ rest_on self b }
    {
        if self.holds(b.low) & (self.high < b.high) {
            return Range {
                low: self.high + 1,
                ..b
            };
        }
        if self.holds(b.high) & (b.low < self.low) {
            return Range {
                high: self.low - 1,
                ..b
            };
        }
        b
    }
}

impl Box {
    pub const EAST_LIMIT: u16 = 4095;

    pub const NORTH_LIMIT: u16 = 4095;

    pub const DAY_LIMIT: u16 = 58438;

    pub fn touches(self, other: Box) -> bool
        ensures { result ≡ touches self other }
    {
        self.east.touches(other.east)
            & self.north.touches(other.north)
            & self.day.touches(other.day)
    }

    pub fn covers(self, other: Box) -> bool
        ensures { result ≡ covers self other }
    {
        self.east.covers(other.east) & self.north.covers(other.north) & self.day.covers(other.day)
    }

    // The number of cells.
    pub fn size(self) -> u64
        ensures { result ≡ size self }
    {
        self.east.length() * self.north.length() * self.day.length()
    }

    // The smallest box that covers both.
    pub fn join(self, other: Box) -> Box
        ensures { result ≡ join self other }
    {
        Box {
            east: self.east.join(other.east),
            north: self.north.join(other.north),
            day: self.day.join(other.day),
        }
    }

    // Whether refusal 2 is not given.
    pub fn legal(self) -> bool
        ensures { result ≡ legal self }
    {
        self.east.legal(Box::EAST_LIMIT)
            & self.north.legal(Box::NORTH_LIMIT)
            & self.day.legal(Box::DAY_LIMIT)
    }

    // What a candidate does to this box.
    pub fn cut_by(self, candidate: Box) -> Cut
        ensures { result ≡ cut candidate self }
    {
        let east = candidate.east.covers(self.east);
        let north = candidate.north.covers(self.north);
        let day = candidate.day.covers(self.day);
        if east & north & day {
            return Cut::Covered;
        }
        if !candidate.touches(self) {
            return Cut::Unchanged;
        }
        if north & day & candidate.east.covers_one_end(self.east) {
            let east = candidate.east.leaves(self.east);
            return Cut::Left(Box { east, ..self });
        }
        if east & day & candidate.north.covers_one_end(self.north) {
            let north = candidate.north.leaves(self.north);
            return Cut::Left(Box { north, ..self });
        }
        if east & north & candidate.day.covers_one_end(self.day) {
            let day = candidate.day.leaves(self.day);
            return Cut::Left(Box { day, ..self });
        }
        Cut::Unchanged
    }
}
