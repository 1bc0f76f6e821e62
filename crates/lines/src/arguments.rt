// The arguments of a line, each a word: numbers and dates, and the six of a box.
ghost use Rattle.std.specs.Prelude.{◌≡◌, ◌≤◌, drop, length, OnSome};
ghost use Rattle.lines.specs.Cursor.{digits_in, number_in, day_in, argument_next, box_next};

use crate::words::Words;
use ground::Date;
use wide::{Span, WideBox};

impl<'a> Words<'a> {
    // The six arguments of a box.
    pub fn typed(&mut self) -> Option<WideBox>
        ensures value { result ≡ box_next self.old }
        ensures rest { OnSome result (self.new ≡ drop 6 self.old) }
    {
        let east = Span {
            low: self.number()?,
            high: self.number()?,
        };
        let north = Span {
            low: self.number()?,
            high: self.number()?,
        };
        let day = Span {
            low: self.date()?,
            high: self.date()?,
        };
        Some(WideBox { east, north, day })
    }

    pub fn number(&mut self) -> Option<u32>
        ensures value { result ≡ argument_next number_in self.old }
        ensures rest { self.new ≡ drop 1 self.old }
    {
        number(self.next()?)
    }

    fn date(&mut self) -> Option<u32>
        ensures value { result ≡ argument_next day_in self.old }
        ensures rest { self.new ≡ drop 1 self.old }
    {
        date(self.next()?)
    }
}

// A number of one to five digits.
fn number(word: &[u8]) -> Option<u32>
    ensures { result ≡ number_in word.now }
{
    if word.is_empty() | (5 < word.len()) {
        return None;
    }
    read_digits(word)
}

// The day of a date that the calendar has, YYYY-MM-DD.
fn date(word: &[u8]) -> Option<u32>
    ensures { result ≡ day_in word.now }
{
    if word.len() != 10 {
        return None;
    }
    if (word[4] != b'-') | (word[7] != b'-') {
        return None;
    }
    let date = Date {
        year: read_digits(&word[..4])?,
        month: read_digits(&word[5..7])?,
        day: read_digits(&word[8..])?,
    };
    Some(u32::from(date.day_number()?))
}

// Few enough digits that their value fits.
fn read_digits(word: &[u8]) -> Option<u32>
    requires { length word.now ≤ 5 }
    ensures { result ≡ digits_in word.now }
{
    let mut value = 0;
    for b in word {
        if !b.is_ascii_digit() {
            return None;
        }
        value = 10 * value + u32::from(*b - b'0');
    }
    Some(value)
}
