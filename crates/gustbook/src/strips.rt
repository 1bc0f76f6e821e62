// The calls on a strip for C and Rust, which gustbook_c exports. The segments are a pointer and a length there, the count and the days numbers that the caller lends.
ghost use Rattle.std.specs.Prelude.{◌≡◌};
ghost use Rattle.strip.specs.StripCalls.{cleared, recorded, asked};
ghost use Rattle.wide.specs.Wide.{narrow};
ghost use Rattle.gustbook.specs.StripBoundary.{days_of, narrow_days, greatest_numbers, strip_told};

use crate::answers::{InNumbers, number_of, tell};
use ground::{Gust, Range, numbered};
use strip::Strip;
use wide::narrow;

// The greatest gust of some days, if any has one.
impl InNumbers<2> for Option<u32> {
    ghost numbers = { greatest_numbers };

    fn in_numbers(self) -> [u32; 2] {
        match self {
            None => [0, 0],
            Some(gust) => [1, gust],
        }
    }
}

// Refusal 4.
pub fn gust_strip_clear(segments: &mut [u32], count: &mut u32) -> u32
    ensures { record { refusal = result; strip = record { words = segments.new; count = count.new } } ≡ cleared (record { words = segments.old; count = count.old }) }
{
    let mut strip = Strip { count: *count };
    let done = strip::clear(segments, &mut strip);
    *count = strip.count;
    number_of(done)
}

// Refusals 2, 3, 4 and 10.
pub fn gust_strip_record(segments: &mut [u32], count: &mut u32, days: &[u32; 2], gust: u32) -> u32
    ensures { record { refusal = result; strip = record { words = segments.new; count = count.new } } ≡ recorded (record { words = segments.old; count = count.old }) (days_of days.now) gust }
{
    let mut strip = Strip { count: *count };
    let gust = Gust {
        tenths: narrow(gust),
    };
    let done = strip::record(segments, &mut strip, days_of(days), gust);
    *count = strip.count;
    number_of(done)
}

// Refusals 2 and 4. The answer: 1 and the gust, or 0 and 0 for nothing.
pub fn gust_strip_ask(segments: &[u32], count: u32, days: &[u32; 2], answer: &mut [u32; 2]) -> u32
    ensures { record { refusal = result; answer = answer.new } ≡ strip_told (asked (record { words = segments.now; count = count }) (days_of days.now)) answer.old }
{
    let said = strip::ask(segments, Strip { count }, days_of(days));
    tell(numbered(said), answer)
}

fn days_of(days: &[u32; 2]) -> Range
    ensures { result ≡ narrow_days days.now }
{
    Range {
        low: narrow(days[0]),
        high: narrow(days[1]),
    }
}
