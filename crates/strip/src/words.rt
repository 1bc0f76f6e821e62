// A segment's word.
ghost use Rattle.std.specs.Prelude.{◌≡◌};
ghost use Rattle.strip.specs.Strips.{segment, last_of, value_of};

// The value is 0 for nothing and v + 1 for gust v, as the words are lent to C.
#[derive(Clone, Copy, Debug, PartialEq, Eq)]
pub struct Segment {
    pub last: u16,
    pub value: u16,
}

impl From<u32> for Segment {
    ghost from_gives = { λ w s. (s.last ≡ last_of w) × (s.value ≡ value_of w) };

    fn from(w: u32) -> Segment {
        Segment {
            last: (w / 65536) as u16,
            value: (w % 65536) as u16,
        }
    }
}

impl From<Segment> for u32 {
    ghost from_gives = { λ s w. w ≡ segment s.last s.value };

    fn from(s: Segment) -> u32 {
        u32::from(s.last) * 65536 + u32::from(s.value)
    }
}
