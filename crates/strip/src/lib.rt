// One site by days: a strip of segments that part all days from 0 to the last, each with a gust or nothing, neighbours unlike.
// A strip is lent as 1,024 words and a count. A word is a segment: its last day in the high half, its value (0 nothing, v + 1 gust v) in the low half.
// Every call answers for every strip, and what it promises settles each word.
#![tactic(auto)]

mod checking;
mod raising;
mod segments;
mod walking;
mod words;

ghost use Rattle.std.specs.Prelude.{◌≡◌};
ghost use Rattle.strip.specs.StripCalls.{left_of, lent, cleared, recorded, asked};

use crate::raising::{Raise, settle};
use crate::segments::Segments;
use crate::words::Segment;
use ground::{Box, Gust, Range, Refusal};

// How many words of a strip are in use.
#[derive(Clone, Copy, Debug, PartialEq, Eq)]
pub struct Strip {
    pub count: u32,
}

impl Strip {
    pub const MOST: usize = 1024;
    // A word more for each end of a record's days, while what it makes is not joined.
    const ROOM: usize = 1026;

    const DAYS: u16 = Box::DAY_LIMIT + 1;

    const GREATEST_VALUE: u16 = Gust::LIMIT + 1;
}

// The strip that is all nothing, unless other than 1,024 words are lent.
pub fn clear(words: &mut [u32], strip: &mut Strip) -> Result<(), Refusal>
    ensures { left_of words.new strip.new result ≡ cleared (lent words.old strip.old) }
{
    if words.len() != Strip::MOST {
        return Err(Refusal::Damaged);
    }
    words[0] = u32::from(Segment {
        last: Box::DAY_LIMIT,
        value: 0,
    });
    strip.count = 1;
    Ok(())
}

// Raises each day of a range to a gust. The days are judged first, then the gust, the strip, and its room.
pub fn record(words: &mut [u32], strip: &mut Strip, days: Range, gust: Gust) -> Result<(), Refusal>
    ensures { left_of words.new strip.new result ≡ recorded (lent words.old strip.old) days gust.tenths }
{
    if !days.legal(Box::DAY_LIMIT) {
        return Err(Refusal::Box);
    }
    if !gust.passes() {
        return Err(Refusal::Gust);
    }
    let raise = Raise::new(Segments::of(words, *strip)?, days, gust);
    let start = raise.start;
    let mut room = [0; Strip::ROOM];
    let made = raise.make(&mut room);
    settle(words, strip, start, made)
}

// The greatest gust of a range of days, if any day of it has one. The days are judged first, then the strip.
pub fn ask(words: &[u32], strip: Strip, days: Range) -> Result<Option<u32>, Refusal>
    ensures { result ≡ asked (lent words.now strip) days }
{
    if !days.legal(Box::DAY_LIMIT) {
        return Err(Refusal::Box);
    }
    let greatest = Segments::of(words, strip)?.greatest_in(days);
    Ok(greatest.checked_sub(1).map(u32::from))
}
