// Writing pages: each part is lent to the function that writes its words. The rules fix the place of every word, so each part is written to its own.
ghost use Rattle.std.specs.Prelude.{◌≡◌, ◌*◌, ◌<◌, length};
ghost use Rattle.pages.specs.Layout.{page_words, entry_words, page_entries, free_page, page_of, page_at, with_entry, put_page};
ghost use Rattle.pages.specs.Layout.{words_of_box, words_of_entry, words_of_entries, words_of_page};
ghost use Rattle.pages.specs.Facts.{InTable};

use crate::{Entry, Page};
use ground::Box;

fn write_box(s: &mut [u16], b: Box)
    requires { length s.old ≡ 6 }
    ensures { s.new ≡ words_of_box b }
{
    s[0] = b.east.low;
    s[1] = b.east.high;
    s[2] = b.north.low;
    s[3] = b.north.high;
    s[4] = b.day.low;
    s[5] = b.day.high;
}

fn write_entry(s: &mut [u16], e: Entry)
    requires { length s.old ≡ entry_words }
    ensures { s.new ≡ words_of_entry e }
{
    s[Entry::GUST] = e.gust;
    s[Entry::WEAKEST] = e.weakest;
    s[Entry::CHILD] = e.child;
    write_box(&mut s[0..Entry::BOX_WORDS], e.place);
    write_box(&mut s[Entry::STRONGEST..Entry::UNION], e.strongest);
    write_box(&mut s[Entry::UNION..Entry::WORDS], e.union);
}

fn write_entries(s: &mut [u16], x: Page)
    requires { length s.old ≡ page_entries * entry_words }
    ensures { s.new ≡ words_of_entries x.entries }
{
    for i in 0..Page::ENTRIES {
        let start = i * Entry::WORDS;
        write_entry(&mut s[start..start + Entry::WORDS], x.entries[i]);
    }
}

fn write_page(s: &mut [u16], x: Page)
    requires { length s.old ≡ page_words }
    ensures { s.new ≡ words_of_page x }
{
    s[0] = x.level;
    s[1] = x.count;
    write_entries(&mut s[2..Page::WORDS], x);
}

pub fn put_page(t: &mut [u16], p: usize, x: Page)
    requires { InTable t.old p }
    ensures { t.new ≡ put_page t.old p x }
{
    let start = p * Page::WORDS;
    let end = start + Page::WORDS;
    write_page(&mut t[start..end], x);
}

// One entry of a page, with its count.
fn write_place(s: &mut [u16], i: usize, e: Entry, n: u16)
    requires { (length s.old ≡ page_words) × (i < page_entries) }
    ensures { s.new ≡ words_of_page (with_entry (page_of s.old) n i e) }
{
    s[1] = n;
    let start = 2 + i * Entry::WORDS;
    let end = start + Entry::WORDS;
    write_entry(&mut s[start..end], e);
}

// Another entry at place i of page p, with its count; all other words stay.
pub fn put_entry(t: &mut [u16], p: usize, i: usize, e: Entry, n: u16)
    requires { InTable t.old p × (i < page_entries) }
    ensures { t.new ≡ put_page t.old p (with_entry (page_at t.old p) n i e) }
{
    let start = p * Page::WORDS;
    let end = start + Page::WORDS;
    write_place(&mut t[start..end], i, e, n);
}

// All words of a page become 0.
pub fn free_page(t: &mut [u16], p: usize)
    requires { InTable t.old p }
    ensures { t.new ≡ put_page t.old p free_page }
{
    let start = p * Page::WORDS;
    let end = start + Page::WORDS;
    t[start..end].fill(0);
}
