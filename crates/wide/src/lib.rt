// Boxes of numbers wider than a page's words, as a clerk types them or a program hands them in, and their narrowing for the book's calls.
#![tactic(auto)]

ghost use Rattle.std.specs.Prelude.{◌≡◌};
ghost use Rattle.wide.specs.Wide.{narrow, narrow_on, narrowed};

use ground::{Box, Range};

// Two ends as they were given, which may be more than a page's word holds. Beside `Range` it has no method but its narrowing:
// one type for both widths would put a parameter on every box of the rules' definitions.
#[derive(Clone, Copy, Debug, PartialEq, Eq)]
pub struct Span {
    pub low: u32,
    pub high: u32,
}

// A box as it was given, its dates as days.
#[derive(Clone, Copy, Debug, PartialEq, Eq)]
pub struct WideBox {
    pub east: Span,
    pub north: Span,
    pub day: Span,
}

impl Span {
    fn narrow(self) -> Range
        ensures { result ≡ narrow_on self }
    {
        Range {
            low: narrow(self.low),
            high: narrow(self.high),
        }
    }
}

impl WideBox {
    // The box for the book's calls. It is refused by 2 exactly when the numbers given are.
    pub fn narrow(self) -> Box
        ensures { result ≡ narrowed self }
    {
        Box {
            east: self.east.narrow(),
            north: self.north.narrow(),
            day: self.day.narrow(),
        }
    }
}

// A given number in 16 bits: one that does not fit becomes the greatest that does, above every limit.
pub fn narrow(n: u32) -> u16
    ensures { result ≡ narrow n }
{
    u16::try_from(n).unwrap_or(u16::MAX)
}
