// Settling a page: it is stored, or split if it has nine entries.
ghost use Rattle.std.specs.Prelude.{true, cond, [], ◌∷◌, ◌++◌, ◌≡◌, ◌≤◌, eqb, set};
ghost use Rattle.pages.specs.Layout.{page_entries, table_fits, pages_of};
ghost use Rattle.pages.specs.Summary.{in_use};
ghost use Rattle.wellformed.specs.WellFormed.{page};
ghost use Rattle.recording.specs.PageSteps.{Tidy, TidyPage};
ghost use Rattle.recording.specs.LyingSteps.{exact_page, settled_at};
ghost use Rattle.recording.specs.LowSteps.{NoneBut, Low};
ghost use Rattle.recording.specs.SettleSteps.{Settles, settled, came_back};
ghost use Rattle.recording.specs.Views.{Leaves, became_of};

use crate::table::{child_lying, load, put_at, store, summary, used_at};
use pages::{Entry, Page};

// Where the search for a free page begins: a page of level 0 that is split could itself be the lowest.
fn begin_at(level: u16, from: usize) -> usize
    ensures { result ≡ cond (eqb level 0) 0 from }
{
    if level == 0 { 0 } else { from }
}

// What becomes of a page is told by the page that took the second group, if it was split.
// The first group stays in the page, the second takes the lowest free page. No page below `from` is free, but perhaps p.
fn split_page(t: &mut [u16], p: usize, x: Page, e: Entry, from: usize) -> Option<u16>
    requires { (table_fits t.old ≡ true) × Tidy x x.level (in_use x) × (page_entries ≤ x.count) × NoneBut (pages_of t.old) p from }
    ensures { Settles t.old t.new result (settled (pages_of t.old) p x.level (in_use x ++ (e ∷ []))) }
{
    let halves = split::split(x, e);
    store(t, p, halves.first);
    let q = pages::lowest_free_from(t, begin_at(x.level, from))?;
    store(t, q, halves.second);
    Some(q as u16)
}

// The entry at place i made exact for the child as it now is, where the page lies.
fn make_exact(t: &mut [u16], p: usize, i: usize)
    requires { (table_fits t.old ≡ true) × TidyPage (page (pages_of t.old) p) }
    ensures { Leaves t.old t.new (set (pages_of t.old) p (exact_page (pages_of t.old) p i)) }
{
    let n = used_at(t, p);
    if i < n {
        let e = summary(t, child_lying(t, p, i));
        put_at(t, p, i, e, n as u16);
    }
}

// With one entry more, where the page lies. No page below `from` is free, but perhaps p.
pub fn append_at(t: &mut [u16], p: usize, e: Entry, from: usize) -> Option<u16>
    requires { (table_fits t.old ≡ true) × TidyPage (page (pages_of t.old) p) × NoneBut (pages_of t.old) p from }
    ensures { Settles t.old t.new result (settled_at (pages_of t.old) p e) }
{
    let n = used_at(t, p);
    if n < Page::ENTRIES {
        put_at(t, p, n, e, n as u16 + 1);
        return None;
    }
    split_page(t, p, load(t, p), e, from)
}

// Coming back to page p from the child at place i, of which this became.
pub fn come_back(t: &mut [u16], p: usize, i: usize, child: Option<u16>) -> Option<u16>
    requires { (table_fits t.old ≡ true) × TidyPage (page (pages_of t.old) p) × Low (became_of child) (pages_of t.old) }
    ensures { Settles t.old t.new result (came_back (became_of child) (pages_of t.old) p i) }
{
    match child {
        None => {
            make_exact(t, p, i);
            None
        }
        Some(q) => {
            let e = summary(t, q);
            make_exact(t, p, i);
            append_at(t, p, e, usize::from(q))
        }
    }
}
