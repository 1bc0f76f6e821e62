// The search of a page and the search of one entry, which call each other, one level lower each time. None: a page may not be opened.
// Entries are read where they lie. The question goes along as a sieve, so that a box is tested by one comparison of eight words.
// The best is a number, 0 for nothing and v + 1 for a gust v: an `Option` is compared in more steps at every entry, a tenth slower.
ghost use Rattle.std.specs.Prelude.{true, ◌≡◌, ◌+◌, ◌-◌, ◌≤◌, IsSome, IfSome};
ghost use Rattle.pages.specs.Layout.{table_fits, pages_of};
ghost use Rattle.pages.specs.Summary.{in_use};
ghost use Rattle.asking.specs.Asking.{found, raised, step, search_entry, search_page, least_root, search_book, answered};
ghost use Rattle.asking.specs.Seen.{most_best, seen, raised_by, opens, searched_in};

use crate::Asked;
use ground::{Box, Refusal};
use pages::{EntryAt, Page, PageAt, Small};
use sieve::Sieve;

// What becomes of an index entry.
#[derive(Clone, Copy)]
pub enum Step {
    Pass,
    // The best becomes this gust.
    Raise(u16),
    // This page is opened.
    Open(u16),
}

// Opens page p, if it may be opened: it is counted.
fn open<'a>(t: &'a [u16], p: usize, level: u32, least: u16, opened: &mut u32) -> Option<PageAt<'a>>
    requires { table_fits t.now ≡ true }
    ensures finds { result ≡ opens (pages_of t.now) level least p opened.old }
    ensures counted { IsSome result → opened.new ≡ opened.old + 1 }
{
    let page = PageAt::get(t, p)?;
    let pages = t.len() / Page::WORDS;
    let entries = page.count();
    let may = (1 <= level)
        & (u32::from(page.level()) == level)
        & (least <= entries)
        & (entries <= Page::MOST_COUNT)
        & ((*opened as usize) < pages);
    // Counted without a branch: then the search reads the sieve eight words at once where it lies, and copies it at no level.
    *opened += u32::from(may);
    if !may {
        return None;
    }
    Some(page)
}

// The best after a leaf entry.
fn raise(entry: &EntryAt, q: &Sieve, best: u32) -> u32
    ensures comes { result ≡ raised q.now entry.now best }
    ensures low { best ≤ most_best → result ≤ most_best }
{
    let gust = u32::from(entry.gust()) + 1;
    if q.touches_place(entry) {
        best.max(gust)
    } else {
        best
    }
}

// The best after all entries of a leaf.
fn search_leaf(page: &PageAt, q: &Sieve, best: u32) -> u32
    ensures comes { result ≡ raised_by q.now (in_use page.now) best }
    ensures low { best ≤ most_best → result ≤ most_best }
{
    (0..page.in_use()).fold(best, |most, i| raise(&page.entry(i), q, most))
}

// What becomes of an index entry, as far as its own words tell.
fn decide(entry: &EntryAt, q: &Sieve, best: u32) -> Step
    ensures { result ≡ step q.now entry.now best }
{
    let gust = entry.gust();
    if (u32::from(gust) + 1 <= best) | !q.touches_place(entry) {
        return Step::Pass;
    }
    if q.touches_strongest(entry) || q.covers_place(entry) {
        return Step::Raise(gust);
    }
    Step::Open(entry.child())
}

// The search of a page, which has been opened: its entries in order.
#[cycle(search_entry_search_page)]
fn search_page(
    t: &[u16],
    page: &PageAt,
    level: u32,
    q: &Sieve,
    best: u32,
    opened: &mut u32,
) -> Option<u32>
    requires { (table_fits t.now ≡ true) × (1 ≤ level) × (best ≤ most_best) }
    ensures comes { seen result opened.new ≡ searched_in (pages_of t.now) q.now (level - 1) page.now best opened.old }
    ensures low { IfSome result (λ b. b ≤ most_best) }
{
    if level == 1 {
        return Some(search_leaf(page, q, best));
    }
    let mut best = best;
    for i in 0..page.in_use() {
        best = search_entry(t, &page.entry(i), level, q, best, opened)?;
    }
    Some(best)
}

// The search of an entry of an index page.
#[cycle(search_entry_search_page)]
fn search_entry(
    t: &[u16],
    entry: &EntryAt,
    level: u32,
    q: &Sieve,
    best: u32,
    opened: &mut u32,
) -> Option<u32>
    requires { (table_fits t.now ≡ true) × (2 ≤ level) × (best ≤ most_best) }
    ensures comes { seen result opened.new ≡ search_entry (search_page (pages_of t.now) q.now (level - 1) 1) q.now entry.now (found best opened.old) }
    ensures low { IfSome result (λ b. b ≤ most_best) }
{
    match decide(entry, q, best) {
        Step::Pass => Some(best),
        Step::Raise(gust) => Some(u32::from(gust) + 1),
        Step::Open(child) => {
            let child = open(t, usize::from(child), level - 1, 1, opened)?;
            search_page(t, &child, level - 1, q, best, opened)
        }
    }
}

// A leaf root may be empty.
fn least_root(height: u32) -> u16
    ensures { result ≡ least_root height }
{
    if height == 1 { 0 } else { 1 }
}

// The best after the search of the book: its root is opened.
fn search_root(t: &[u16], s: Small, q: Box, opened: &mut u32) -> Option<u32>
    requires { (table_fits t.now ≡ true) × (opened.old ≡ 0) }
    ensures comes { seen result opened.new ≡ search_book (pages_of t.now) s q }
    ensures low { IfSome result (λ b. b ≤ most_best) }
{
    let sieve = Sieve::of(q);
    let root = open(t, s.root as usize, s.height, least_root(s.height), opened)?;
    search_page(t, &root, s.height, &sieve, 0, opened)
}

// The search of the book.
pub fn search_book(t: &[u16], s: Small, q: Box) -> Result<Asked, Refusal>
    requires { table_fits t.now ≡ true }
    ensures { result ≡ answered (search_book (pages_of t.now) s q) }
{
    let mut opened = 0;
    let best = search_root(t, s, q, &mut opened).ok_or(Refusal::Damaged)?;
    let gust = best.checked_sub(1).map(|gust| gust as u16);
    Ok(Asked {
        gust,
        pages: opened,
    })
}
