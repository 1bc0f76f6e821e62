// Whether words part all days, as refusal 4 asks.
ghost use Rattle.std.specs.Prelude.{◌≡◌};
ghost use Rattle.strip.specs.Strips.{no_value, parts};
ghost use Rattle.strip.specs.Walking.{may_follow};

use crate::Strip;
use crate::words::Segment;

// A segment after one that ended just before this day and had this value. In 32 bits, so that the machine tests several at once.
fn may_follow(first: u32, before: u32, last: u32, value: u32) -> bool
    ensures { result ≡ may_follow first before last value }
{
    (first <= last) & ((value <= u32::from(Strip::GREATEST_VALUE)) & (value != before))
}

pub fn part_days(words: &[u32]) -> bool
    ensures { result ≡ parts 0 no_value words.now }
{
    let mut good = true;
    let mut first = 0;
    let mut before = u32::from(Strip::GREATEST_VALUE) + 1;
    for w in words {
        let segment = Segment::from(*w);
        let last = u32::from(segment.last);
        let value = u32::from(segment.value);
        good &= may_follow(first, before, last, value);
        first = last + 1;
        before = value;
    }
    good & (first == u32::from(Strip::DAYS))
}
