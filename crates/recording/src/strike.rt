// Step 1: striking. A struck entry frees every page under it, and the rest of its page closes up.
ghost use Rattle.std.specs.Prelude.{true, map, ◌≡◌, ◌+◌, min};
ghost use Rattle.pages.specs.Layout.{table_fits, pages_of};
ghost use Rattle.wellformed.specs.WellFormed.{page, child_of};
ghost use Rattle.rules.specs.Strike.{is_struck, strike_one, strike_page};
ghost use Rattle.recording.specs.StrikeSteps.{naming};
ghost use Rattle.recording.specs.Views.{most_struck, Frees};
ghost use Rattle.recording.specs.WalkSteps.{MayStrike};

use crate::news::News;
use crate::table::{blank_page, load, release, store, used_at};
use ground::Box;
use pages::{Entry, Page, PageAt, Small};
use std::array;

// The pages that a page's entries name. Held while they are freed, since a spoilt table may name the page itself.
fn children_of(t: &[u16], p: usize) -> [u16; Page::ENTRIES]
    ensures { result ≡ map child_of (page (pages_of t.now) p).entries }
{
    let Some(page) = PageAt::get(t, p) else {
        return [0; Page::ENTRIES];
    };
    array::from_fn(|i| page.entry(i).child())
}

// So many more struck.
pub fn more_struck(struck: u32, more: u32) -> u32
    ensures { result ≡ min (struck + more) most_struck }
{
    struck.saturating_add(more).min(Small::MOST_ACCEPTED)
}

// An entry goes, of a page with n levels under it: it is one record, or all pages under its child are freed, n levels of them.
fn free_under(t: &mut [u16], n: usize, child: u16) -> u32
    requires { table_fits t.old ≡ true }
    ensures { Frees t.old t.new result (strike_one n (pages_of t.old) (naming child)) }
{
    if n == 0 {
        return 1;
    }
    let p = usize::from(child);
    let used = used_at(t, p);
    if n == 1 {
        // A leaf's records are counted at once.
        release(t, p);
        return used as u32;
    }
    let children = children_of(t, p);
    let mut struck = 0;
    for c in &children[..used] {
        struck = more_struck(struck, free_under(t, n - 1, *c));
    }
    release(t, p);
    struck
}

fn is_struck(b: Box, v: u16, e: Entry) -> bool
    ensures { result ≡ is_struck b v e }
{
    b.covers(e.place) & (e.gust <= v)
}

// Step 1 at page p, which has n levels under it. It is held by value, since a spoilt table may name the page itself.
fn strike_page(t: &mut [u16], n: usize, b: Box, v: u16, p: usize) -> u32
    requires { table_fits t.old ≡ true }
    ensures { Frees t.old t.new result (strike_page n b v (pages_of t.old) p) }
{
    let x = load(t, p);
    let mut rest = Page {
        level: x.level,
        ..blank_page()
    };
    let mut struck = 0;
    for e in &x.entries[..usize::from(x.count).min(Page::ENTRIES)] {
        if is_struck(b, v, *e) {
            struck = more_struck(struck, free_under(t, n, e.child));
        } else {
            rest.entries[usize::from(rest.count)] = *e;
            rest.count += 1;
        }
    }
    store(t, p, rest);
    struck
}

// Only where the look sees an entry that may be struck: any other page is left as it lies.
pub fn strike_at(t: &mut [u16], n: usize, p: usize, b: Box, news: &News) -> u32
    requires { MayStrike t.old news.now.sieve p b }
    ensures { Frees t.old t.new result (strike_page n b news.now.gust (pages_of t.old) p) }
{
    if news.strikes_some(&PageAt::of(t, p)) {
        return strike_page(t, n, b, news.gust, p);
    }
    0
}
