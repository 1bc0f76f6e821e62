// The segments in use of a strip, which part all days.
ghost use Rattle.std.specs.Prelude.{◌≡◌, ◌+◌, ◌-◌, ◌≤◌, ◌<◌, suc, max, true, false, ltb, length, take, fold, MatchResult};
ghost use Rattle.std.specs.List.{prefix_len};
ghost use Rattle.ground.specs.Boxes.{day_limit};
ghost use Rattle.ground.specs.Facts.{LegalOn};
ghost use Rattle.ground.specs.declared.refusals.Refusal.TheVariants.{Damaged};
ghost use Rattle.strip.specs.Strips.{no_value, last_of, value_of, value_on, parts, greatest_on};
ghost use Rattle.strip.specs.StripCalls.{lent, segments, is_strip};
ghost use Rattle.strip.specs.Places.{first_day, Found};

use crate::Strip;
use crate::checking::part_days;
use crate::words::Segment;
use ground::{Range, Refusal};

#[derive(Clone, Copy)]
pub struct Segments<'a> {
    pub words: &'a [u32],
    ghost good: { parts 0 no_value words.now ≡ true },
    ghost few: { length words.now ≤ 1_024 },
}

impl<'a> Segments<'a> {
    // Those of a lent strip, unless it gives refusal 4.
    pub fn of(words: &'a [u32], strip: Strip) -> Result<Segments<'a>, Refusal>
        ensures { MatchResult result (λ s. (s.words.now ≡ segments (lent words.now strip)) × (is_strip (lent words.now strip) ≡ true)) (λ e. (e ≡ Damaged) × (is_strip (lent words.now strip) ≡ false)) }
    {
        let n = strip.count as usize;
        if (words.len() != Strip::MOST) | (Strip::MOST < n) {
            return Err(Refusal::Damaged);
        }
        let words = &words[..n];
        if !part_days(words) {
            return Err(Refusal::Damaged);
        }
        Ok(Segments { words })
    }

    // The place of the segment that has a day.
    pub fn find(self, day: u16) -> usize
        requires { day ≤ day_limit }
        ensures { Found self.entry.words.now day result }
    {
        self.words.partition_point(|w| Segment::from(*w).last < day)
    }

    // The same from an earlier segment on, one after another: a question or a record is mostly of few.
    pub fn find_from(self, from: usize, day: u16) -> usize
        requires inside { from < length self.words.now }
        requires begins { first_day self.words.now from ≤ day }
        requires lawful { day ≤ day_limit }
        ensures { Found self.entry.words.now day result × (from ≤ result) }
    {
        from + ended(&self.words[from..], day)
    }

    // The first day of a segment follows the last day of the one before it.
    pub fn first_day(self, i: usize) -> u16
        requires { i ≤ length self.words.now }
        ensures { result ≡ first_day self.entry.words.now i }
    {
        if i == 0 {
            return 0;
        }
        Segment::from(self.words[i - 1]).last + 1
    }

    // The value of the day on which a segment begins, and of the day past the last.
    pub fn value_from(self, i: usize) -> u16
        requires { i ≤ length self.words.now }
        ensures { result ≡ value_on self.entry.words.now (first_day self.entry.words.now i) }
    {
        self.words.get(i).map_or(0, |w| Segment::from(*w).value)
    }

    // The greatest value from the segment that has the first day to the one that has the last.
    pub fn greatest_in(self, days: Range) -> u16
        requires { LegalOn day_limit days }
        ensures { result ≡ greatest_on (value_on self.entry.words.now) days.low (suc days.high - days.low) }
    {
        let first = self.find(days.low);
        greatest_to(&self.words[first..], days.high)
    }
}

// How many of them, from the first on, end before a day.
fn ended(words: &[u32], day: u16) -> usize
    ensures { result ≡ prefix_len (λ w. ltb (last_of w) day) words.now }
{
    words
        .iter()
        .take_while(|w| Segment::from(**w).last < day)
        .count()
}

// The greatest value of those up to the first that ends on a day or later. In one pass: a question is mostly of few.
fn greatest_to(words: &[u32], day: u16) -> u16
    ensures { result ≡ fold (λ best w. max best (value_of w)) 0 (take (suc (prefix_len (λ w. ltb (last_of w) day) words.now)) words.now) }
{
    let mut best = 0;
    for w in words {
        let segment = Segment::from(*w);
        best = best.max(segment.value);
        if day <= segment.last {
            return best;
        }
    }
    best
}
