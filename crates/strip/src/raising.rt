// A record on a strip that parts all days: what it makes of the segments it touches, and those after them, is made in room of its own, and only then written back.
ghost use Rattle.std.specs.Prelude.{◌++◌, ◌≡◌, ◌+◌, ◌-◌, ◌≤◌, length, take};
ghost use Rattle.ground.specs.Boxes.{day_limit, gust_limit};
ghost use Rattle.ground.specs.Facts.{LegalOn};
ghost use Rattle.strip.specs.Strips.{greatest_value};
ghost use Rattle.strip.specs.StripCalls.{left_of, lent, fitted};
ghost use Rattle.strip.specs.Places.{Found};

use crate::Strip;
use crate::segments::Segments;
use ground::{Gust, Range, Refusal};

// The segments, the one to go down to, which has the day before the record's first, the record's days and its value, which is the word's: v + 1 for a gust v.
#[derive(Clone, Copy)]
pub struct Raise<'a> {
    pub segments: Segments<'a>,
    pub start: usize,
    pub days: Range,
    pub value: u16,
    ghost begins: { Found segments.words.now (days.low - 1) start },
    ghost lawful: { LegalOn day_limit days },
    ghost small: { value ≤ greatest_value },
}

impl<'a> Raise<'a> {
    pub fn new(segments: Segments<'a>, days: Range, gust: Gust) -> Raise<'a>
        requires lawful { LegalOn day_limit days }
        requires small { gust.tenths ≤ gust_limit }
        ensures segments { result.segments.words.now ≡ segments.entry.words.now }
        ensures days { result.days ≡ days }
        ensures value { result.value ≡ gust.tenths + 1 }
    {
        let start = segments.find(days.low.saturating_sub(1));
        let value = gust.tenths + 1;
        Raise {
            segments,
            start,
            days,
            value,
        }
    }
}

// Refusal 10 is judged on the result, before a word is written.
pub fn settle(
    words: &mut [u32],
    strip: &mut Strip,
    start: usize,
    made: &[u32],
) -> Result<(), Refusal>
    requires { (length words.old ≡ 1_024) × (start ≤ 1_024) × (length made.now ≤ 1_026) }
    ensures { left_of words.new strip.new result ≡ fitted (take start words.old ++ made.now) (lent words.old strip.old) }
{
    let size = start + made.len();
    if Strip::MOST < size {
        return Err(Refusal::Strip);
    }
    words[start..size].copy_from_slice(made);
    strip.count = size as u32;
    Ok(())
}
