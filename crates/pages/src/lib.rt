// The pages of the gust book: where each word of a page lies is known here.
// One crate goes by the order of a box's six words beside it: `sieve` tests them where they lie.
// A book is a lent table of 16-bit words, a page after another, and a small record.
#![tactic(auto)]

mod entry_at;
mod free;
mod page_at;
mod reading;
mod summary;
mod words;
mod writing;

ghost use Rattle.std.specs.Prelude.{◌≡◌};
ghost use Rattle.pages.specs.Free.{empty_small};

pub use entry_at::EntryAt;
pub use free::{clear, free_at_least, lowest_free, lowest_free_from};
use ground::Box;
pub use page_at::PageAt;
pub use reading::{box_at, table_fits};
pub use words::Laid;
pub use writing::{free_page, put_entry, put_page};

// The small record that goes with a table.
#[derive(Clone, Copy, Debug, Default, PartialEq, Eq)]
pub struct Small {
    pub root: u32,
    pub height: u32,
    pub accepted: u32,
    pub struck: u32,
    pub covered: u32,
}

// An entry of a page. In a leaf all after the gust is 0.
#[derive(Clone, Copy, Debug, Default, PartialEq, Eq)]
pub struct Entry {
    pub place: Box,
    // The gust, or in an index page the strongest gust below.
    pub gust: u16,
    pub weakest: u16,
    // A page's number: pages lie in the lent table, and there is no heap.
    pub child: u16,
    pub strongest: Box,
    pub union: Box,
}

// A page: its level (0 free, 1 leaf, one more for each step up), its count, and its eight entries. These are the words of the layout, so the level is a number.
#[derive(Clone, Copy, Debug, Default, PartialEq, Eq)]
pub struct Page {
    pub level: u16,
    pub count: u16,
    pub entries: [Entry; Page::ENTRIES],
}

impl Page {
    pub const WORDS: usize = 170;

    pub const ENTRIES: usize = 8;
    // The same as a count, which is a word.
    pub const MOST_COUNT: u16 = Page::ENTRIES as u16;

    pub const MOST: usize = 4096;

    pub const IMAGE_BYTES: usize = 2 * Page::WORDS;
}

impl Entry {
    pub const WORDS: usize = 21;

    pub const BOX_WORDS: usize = 6;
    // Where its parts begin, after the box.
    pub const GUST: usize = Entry::BOX_WORDS;

    pub const WEAKEST: usize = 7;

    pub const CHILD: usize = 8;

    pub const STRONGEST: usize = 9;

    pub const UNION: usize = 15;
}

impl Small {
    pub const MOST_ACCEPTED: u32 = 1000000;

    // The small record of an empty book.
    pub fn empty() -> Small
        ensures { result ≡ empty_small }
    {
        Small {
            root: 0,
            height: 1,
            accepted: 0,
            struck: 0,
            covered: 0,
        }
    }
}
