// From a full page and a ninth entry to two pages.
ghost use Rattle.std.specs.Prelude.{◌≡◌, [], ◌∷◌, ◌++◌, ◌≤◌, length};
ghost use Rattle.pages.specs.Layout.{page_entries};
ghost use Rattle.split.specs.Split.{boxes_of, entries_at, halves, page_from, pages_from};
ghost use Rattle.split.specs.Working.{empty_page};

use crate::places::Places;
use crate::placing::Sides;
use crate::seeds::Seeds;
use ground::{Box, Range};
use pages::{Entry, Page};

// The two pages of a split.
#[derive(Clone, Copy)]
pub struct Halves {
    pub first: Page,
    pub second: Page,
}

// A full page's entries and one more.
#[derive(Clone, Copy)]
pub struct Nine {
    pub entries: [Entry; Nine::ENTRIES],
}

impl Nine {
    pub const ENTRIES: usize = Page::ENTRIES + 1;

    fn of(page: Page, ninth: Entry) -> Nine
        ensures { result.entries ≡ page.entries ++ (ninth ∷ []) }
    {
        let mut entries = [ninth; Nine::ENTRIES];
        entries[..Page::ENTRIES].copy_from_slice(&page.entries);
        Nine { entries }
    }

    fn boxes(&self) -> [Box; Nine::ENTRIES]
        ensures { result ≡ boxes_of self.now.entries }
    {
        self.entries.map(|e| e.place)
    }

    // The page with the entries of one group.
    fn page(&self, level: u16, members: &Places) -> Page
        requires { length members.now ≤ page_entries }
        ensures { result ≡ page_from level (entries_at self.now.entries members.now) }
    {
        let mut page = empty(level, members.count() as u16);
        for (k, i) in members.as_slice().iter().enumerate() {
            page.entries[k] = self.entries[*i];
        }
        page
    }
}

// A page whose entries are still all 0.
fn empty(level: u16, count: u16) -> Page
    ensures { result ≡ empty_page level count }
{
    let none = Range { low: 0, high: 0 };
    let nowhere = Box {
        east: none,
        north: none,
        day: none,
    };
    let unused = Entry {
        place: nowhere,
        gust: 0,
        weakest: 0,
        child: 0,
        strongest: nowhere,
        union: nowhere,
    };
    Page {
        level,
        count,
        entries: [unused; Page::ENTRIES],
    }
}

// A full page and a ninth entry make two pages of its level; the first group stays in the page.
pub fn split(page: Page, ninth: Entry) -> Halves
    ensures { result ≡ pages_from page.level (halves (page.entries ++ (ninth ∷ []))) }
{
    let nine = Nine::of(page, ninth);
    let boxes = nine.boxes();
    let mut sides = Sides::begun(&boxes, Seeds::worst(&boxes));
    sides.place_all(&boxes);
    let first = &sides.first;
    let second = &sides.second;
    Halves {
        first: nine.page(page.level, &first.members),
        second: nine.page(page.level, &second.members),
    }
}
