// The table as the definitions read it: past the end every page is free, and what is put there is lost.
ghost use Rattle.std.specs.Prelude.{true, ◌≡◌, ◌<◌, get_or, set};
ghost use Rattle.pages.specs.Layout.{page_entries, pages_in, table_fits, pages_of, zero_entry, free_page, with_entry};
ghost use Rattle.pages.specs.Summary.{in_use, summary_of};
ghost use Rattle.wellformed.specs.WellFormed.{page};
ghost use Rattle.recording.specs.TableSteps.{UsedAt};
ghost use Rattle.recording.specs.Views.{Leaves};

use pages::{Entry, Page, PageAt};

// A page by value that is 0 throughout, said in the definitions' words.
pub fn blank_page() -> Page
    ensures { result ≡ free_page }
{
    Page::default()
}

// How many pages the table has.
fn pages_in(t: &[u16]) -> usize
    ensures { result ≡ pages_in t.now }
{
    t.len() / Page::WORDS
}

pub fn load(t: &[u16], p: usize) -> Page
    ensures { result ≡ page (pages_of t.now) p }
{
    let Some(page) = PageAt::get(t, p) else {
        return blank_page();
    };
    page.read()
}

pub fn store(t: &mut [u16], p: usize, x: Page)
    requires { table_fits t.old ≡ true }
    ensures { Leaves t.old t.new (set (pages_of t.old) p x) }
{
    if p < pages_in(t) {
        pages::put_page(t, p, x);
    }
}

pub fn release(t: &mut [u16], p: usize)
    requires { table_fits t.old ≡ true }
    ensures { Leaves t.old t.new (set (pages_of t.old) p free_page) }
{
    if p < pages_in(t) {
        pages::free_page(t, p);
    }
}

// The exact index entry for page p.
pub fn summary(t: &[u16], p: u16) -> Entry
    ensures { result ≡ summary_of p (page (pages_of t.now) p) }
{
    let Some(page) = PageAt::get(t, usize::from(p)) else {
        return Entry {
            child: p,
            ..Entry::default()
        };
    };
    page.summary(p)
}

// The level of page p, where it lies.
pub fn level_of(t: &[u16], p: u16) -> u16
    ensures { result ≡ (page (pages_of t.now) p).level }
{
    let Some(page) = PageAt::get(t, usize::from(p)) else {
        return 0;
    };
    page.level()
}

// How many entries of page p are in use, where it lies.
pub fn used_at(t: &[u16], p: usize) -> usize
    ensures { UsedAt t.now p result }
{
    let Some(page) = PageAt::get(t, p) else {
        return 0;
    };
    page.in_use()
}

// The child at a place of page p; 0 if it has no such place.
pub fn child_lying(t: &[u16], p: usize, i: usize) -> u16
    ensures { result ≡ (get_or (in_use (page (pages_of t.now) p)) i zero_entry).child }
{
    let Some(page) = PageAt::get(t, p) else {
        return 0;
    };
    if page.in_use() <= i {
        return 0;
    }
    page.entry(i).child()
}

// Another entry at place i of page p, with its count.
pub fn put_at(t: &mut [u16], p: usize, i: usize, e: Entry, n: u16)
    requires { (table_fits t.old ≡ true) × (i < page_entries) }
    ensures { Leaves t.old t.new (set (pages_of t.old) p (with_entry (page (pages_of t.old) p) n i e)) }
{
    if p < pages_in(t) {
        pages::put_entry(t, p, i, e, n);
    }
}
