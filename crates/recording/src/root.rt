// The root: the walk from it, the new root above a split one, and the collapse.
ghost use Rattle.std.specs.Prelude.{true, [], ◌≡◌, ◌+◌, ◌<◌, get_or, set};
ghost use Rattle.split.specs.Split.{page_from};
ghost use Rattle.pages.specs.Layout.{table_fits, pages_of, zero_entry, free_page};
ghost use Rattle.pages.specs.Summary.{in_use};
ghost use Rattle.wellformed.specs.WellFormed.{page};
ghost use Rattle.rules.specs.CameLaws.{Before};
ghost use Rattle.rules.specs.Recording.{from_root, new_root_at, put_root_right, one_entry, collapse};
ghost use Rattle.pages.specs.Free.{lowest_free};
ghost use Rattle.recording.specs.RootSteps.{Roots, RootsIf, LevelFits, Above};
ghost use Rattle.recording.specs.Views.{Leaves, sought_of, became_of, Walks};

use crate::news::News;
use crate::scan::Sought;
use crate::strike::strike_at;
use crate::table::{blank_page, child_lying, level_of, release, store, summary, used_at};
use crate::walk::{Walked, walk_down};
use pages::Page;

fn empty_leaf() -> Page
    ensures { result ≡ page_from 1 [] }
{
    Page {
        level: 1,
        ..blank_page()
    }
}

// Step 1 at the root, with n levels under it; step 2: left with no entry, it becomes an empty leaf; and on.
pub fn from_root(t: &mut [u16], n: usize, v: u16, root: usize, s: Sought) -> Walked
    requires { (table_fits t.old ≡ true) × Before n v (pages_of t.old) root (sought_of s) }
    ensures { Walks t.old t.new result (from_root n v (pages_of t.old) root (sought_of s)) }
{
    let news = News::of(s.place, v);
    let struck = strike_at(t, n, root, s.place, &news);
    if used_at(t, root) == 0 {
        store(t, root, empty_leaf());
        return walk_down(t, 0, root, s, struck, &news);
    }
    walk_down(t, n, root, s, struck, &news)
}

fn one_entry(t: &[u16], root: u16) -> bool
    ensures { result ≡ one_entry (page (pages_of t.now) root) }
{
    (2 <= level_of(t, root)) & (used_at(t, usize::from(root)) == 1)
}

// While the root is an index page with one entry, its child becomes the root; at most n times.
pub fn collapse(t: &mut [u16], n: usize, root: u16) -> u16
    requires { table_fits t.old ≡ true }
    ensures { Roots t.old t.new result (collapse n (pages_of t.old) root) }
{
    let mut r = root;
    for _ in 0..n {
        if !one_entry(t, r) {
            return r;
        }
        let child = child_lying(t, usize::from(r), 0);
        release(t, usize::from(r));
        r = child;
    }
    r
}

// The page above a split root: the old page's entry first.
fn above(t: &[u16], root: u16, second: u16) -> Page
    ensures { Above (pages_of t.now) root second result }
{
    let mut x = Page {
        level: level_of(t, root).saturating_add(1),
        count: 2,
        ..blank_page()
    };
    x.entries[0] = summary(t, root);
    x.entries[1] = summary(t, second);
    x
}

fn new_root(t: &mut [u16], root: u16, second: u16) -> u16
    requires { table_fits t.old ≡ true }
    ensures { RootsIf (LevelFits (pages_of t.old) root) t.old t.new result (new_root_at (lowest_free (pages_of t.old)) (pages_of t.old) root second) }
{
    let x = above(t, root, second);
    let Some(q) = pages::lowest_free(t) else {
        return root;
    };
    store(t, q, x);
    q as u16
}

pub fn put_root_right(t: &mut [u16], o: Option<u16>, root: u16) -> u16
    requires { table_fits t.old ≡ true }
    ensures { RootsIf (LevelFits (pages_of t.old) root) t.old t.new result (put_root_right (became_of o) (pages_of t.old) root) }
{
    match o {
        None => root,
        Some(q) => new_root(t, root, q),
    }
}
