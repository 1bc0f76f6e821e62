// The summary of a page: the exact index entry for it, gathered in place from the last entry in use to the first.
ghost use Rattle.std.specs.Prelude.{cond, ◌≡◌, ◌≤◌, ◌<◌, ltb, length};
ghost use Rattle.pages.specs.Layout.{page_entries};
ghost use Rattle.pages.specs.Summary.{is_leaf, in_use, record_box, weak_gust, union_box, union_size};
ghost use Rattle.pages.specs.Summary.{covering, summary_of};
ghost use Rattle.pages.specs.GatherLaws.{empty_summary};
ghost use Rattle.pages.specs.Ends.{ends_of, least, boxed, Narrow};

use crate::reading::box_at;
use crate::{Entry, EntryAt, PageAt};
use ground::{Box, Range};

// Which word of an entry, after its first, holds what the summary takes.
fn by_level(level: u16, leaf: usize, index: usize) -> usize
    ensures { result ≡ cond (is_leaf level) leaf index }
{
    if level == 1 { leaf } else { index }
}

fn record_box(entry: &EntryAt, level: u16) -> Box
    ensures { result ≡ record_box level entry.now }
{
    box_at(entry.words(), by_level(level, 0, Entry::STRONGEST))
}

fn union_box(entry: &EntryAt, level: u16) -> Box
    ensures { result ≡ union_box level entry.now }
{
    box_at(entry.words(), by_level(level, 0, Entry::UNION))
}

fn union_size(entry: &EntryAt, level: u16) -> u64
    ensures { result ≡ union_size level entry.now }
{
    union_box(entry, level).size()
}

fn weak_gust(entry: &EntryAt, level: u16) -> u16
    ensures { result ≡ weak_gust level entry.now }
{
    entry.words()[by_level(level, Entry::GUST, Entry::WEAKEST)]
}

// The lowest place of the greatest key, of the places that were seen from the last one down.
#[derive(Clone, Copy)]
struct Greatest {
    key: u64,
    place: usize,
}

impl Greatest {
    // A later place stays only if its key is greater.
    fn or_before(self, key: u64, place: usize) -> Greatest
        ensures key { result.key ≡ cond (ltb key self.key) self.key key }
        ensures place { result.place ≡ cond (ltb key self.key) self.place place }
    {
        if key < self.key {
            self
        } else {
            Greatest { key, place }
        }
    }
}

// The six ends of a box side by side, the high ones turned upside down: the greater one was, the less it is.
// Then all ends of a covering box are the least of their kind, and the machine takes several at once.
#[derive(Clone, Copy)]
pub struct Ends {
    pub east_low: u16,
    pub east_high: u16,
    pub north_low: u16,
    pub north_high: u16,
    pub day_low: u16,
    pub day_high: u16,
}

impl Ends {
    fn of(place: Box) -> Ends
        ensures { (result ≡ ends_of place) × Narrow place }
    {
        Ends {
            east_low: place.east.low,
            east_high: !place.east.high,
            north_low: place.north.low,
            north_high: !place.north.high,
            day_low: place.day.low,
            day_high: !place.day.high,
        }
    }

    fn least(self, other: Ends) -> Ends
        ensures { result ≡ least self other }
    {
        Ends {
            east_low: self.east_low.min(other.east_low),
            east_high: self.east_high.min(other.east_high),
            north_low: self.north_low.min(other.north_low),
            north_high: self.north_high.min(other.north_high),
            day_low: self.day_low.min(other.day_low),
            day_high: self.day_high.min(other.day_high),
        }
    }

    fn boxed(self) -> Box
        ensures { result ≡ boxed self }
    {
        Box {
            east: Range {
                low: self.east_low,
                high: !self.east_high,
            },
            north: Range {
                low: self.north_low,
                high: !self.north_high,
            },
            day: Range {
                low: self.day_low,
                high: !self.day_high,
            },
        }
    }
}

// All 0 but the child page.
fn empty_summary(child: u16) -> Entry
    ensures { result ≡ empty_summary child }
{
    Entry {
        child,
        ..Entry::default()
    }
}

impl<'a> PageAt<'a> {
    // The smallest box that covers the n entries in use, at least one. Its own loop: few numbers go round, so none is spilt.
    fn covering(&self, n: usize) -> Box
        requires { (0 < n) × (n ≤ page_entries) × (n ≡ length (in_use self.now)) }
        ensures { result ≡ covering (in_use self.now) }
    {
        let mut ends = Ends::of(self.entry(n - 1).place());
        for i in (0..n - 1).rev() {
            ends = Ends::of(self.entry(i).place()).least(ends);
        }
        ends.boxed()
    }

    // The summary, where n entries are in use, at least one.
    fn gather(&self, child: u16, n: usize) -> Entry
        requires { (0 < n) × (n ≤ page_entries) × (n ≡ length (in_use self.now)) }
        ensures { result ≡ summary_of child self.now }
    {
        let level = self.level();
        let place = self.covering(n);
        let last = self.entry(n - 1);
        let mut weakest = weak_gust(&last, level);
        let mut strongest = Greatest {
            key: u64::from(last.gust()),
            place: n - 1,
        };
        let mut largest = Greatest {
            key: union_size(&last, level),
            place: n - 1,
        };
        for i in (0..n - 1).rev() {
            let entry = self.entry(i);
            weakest = weak_gust(&entry, level).min(weakest);
            strongest = strongest.or_before(u64::from(entry.gust()), i);
            largest = largest.or_before(union_size(&entry, level), i);
        }
        let first = self.entry(strongest.place);
        Entry {
            place,
            gust: first.gust(),
            weakest,
            child,
            strongest: record_box(&first, level),
            union: union_box(&self.entry(largest.place), level),
        }
    }

    // The index entry that names this page as its child.
    pub fn summary(&self, child: u16) -> Entry
        ensures { result ≡ summary_of child self.now }
    {
        let n = self.in_use();
        if n == 0 {
            return empty_summary(child);
        }
        self.gather(child, n)
    }
}
