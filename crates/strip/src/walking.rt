// The walk over the segments that a record touches, from the last down: what they become is made behind the last word of lent room.
ghost use Rattle.std.specs.Prelude.{◌++◌, ◌≡◌, ◌<◌, ◌≤◌, length, take};
ghost use Rattle.strip.specs.StripCalls.{stand_for};
ghost use Rattle.strip.specs.Walking.{piece_first, piece_value, after, Fronted, Walked};

use crate::Strip;
use crate::raising::Raise;
use crate::words::Segment;
use ground::Box;

// Where the walk stands: the segments and the days that are left, the place of the first word made, and the value that follows, 0 for nothing as in the word.
#[derive(Clone, Copy, Debug, PartialEq, Eq)]
pub struct Walk {
    pub segments: usize,
    pub days: u16,
    pub place: usize,
    pub next: u16,
}

// A word before those from a place on, if it is to stand there: where they begin then.
fn put_in_front(made: &mut [u32], place: usize, stands: bool, w: u32) -> usize
    requires { (1 ≤ place) × (place ≤ length made.old) }
    ensures { Fronted made.old made.new place stands w result }
{
    made[place - 1] = w;
    place - usize::from(stands)
}

impl<'a> Raise<'a> {
    // Made from the end of the room: the segments that are not touched, and before them what becomes of those that are.
    pub fn make<'b>(self, room: &'b mut [u32]) -> &'b [u32]
        requires { length room.old ≡ 1_026 }
        ensures few { length result.now ≤ 1_026 }
        ensures whole { take self.entry.start self.entry.segments.words.now ++ result.now ≡ stand_for (after self.entry) }
    {
        let mut at = self.begin(room);
        // A segment gives up to three pieces, so how many turns there are is not known before.
        while self.start < at.segments {
            at = self.take_piece(room, at);
        }
        &room[at.place..]
    }

    fn begin(self, made: &mut [u32]) -> Walk
        requires { length made.old ≡ 1_026 }
        ensures { Walked self.entry made.new result }
    {
        let past = (self.days.high + 1).min(Box::DAY_LIMIT);
        let stop = self.segments.find_from(self.start, past) + 1;
        let untouched = &self.segments.words[stop..];
        let place = Strip::ROOM - untouched.len();
        made[place..].copy_from_slice(untouched);
        Walk {
            segments: stop,
            days: self.segments.first_day(stop),
            place,
            next: self.segments.value_from(stop),
        }
    }

    // A piece: days of one segment that a record raises alike, all of them or none. Pieces are taken from the last day down.
    // The first day of the piece that ends on a day, in a segment with this first day.
    fn piece_first(self, first: u16, last: u16) -> u16
        ensures { result ≡ piece_first first last self.entry.days }
    {
        if self.days.high < last {
            return first.max(self.days.high + 1);
        }
        if self.days.low <= last {
            return first.max(self.days.low);
        }
        first
    }

    // Its value, in a segment of this value.
    fn piece_value(self, last: u16, value: u16) -> u16
        ensures { result ≡ piece_value last value self.entry.days self.entry.value }
    {
        if self.days.holds(last) {
            return value.max(self.value);
        }
        value
    }

    // One piece.
    fn take_piece(self, made: &mut [u32], at: Walk) -> Walk
        requires { Walked self made.old at × (self.start < at.segments) }
        ensures { Walked self.entry made.new result × (result.days < at.days) }
    {
        let i = at.segments - 1;
        let last = at.days - 1;
        let first = self.segments.first_day(i);
        let from = self.piece_first(first, last);
        let value = self.piece_value(last, Segment::from(self.segments.words[i]).value);
        let ends = (at.days == Strip::DAYS) | (value != at.next);
        let place = put_in_front(made, at.place, ends, u32::from(Segment { last, value }));
        Walk {
            segments: at.segments - usize::from(from == first),
            days: from,
            place,
            next: value,
        }
    }
}
