// The walk from a page whose strikes are done: scan, choose, strike at the child, go on there, come back.
ghost use Rattle.std.specs.Prelude.{true, ◌≡◌, ◌≤◌};
ghost use Rattle.pages.specs.Layout.{table_fits, pages_of};
ghost use Rattle.wellformed.specs.WellFormed.{page};
ghost use Rattle.rules.specs.Recording.{leaf_entry, walk_down};
ghost use Rattle.recording.specs.LyingSteps.{leaf_settled};
ghost use Rattle.recording.specs.PageSteps.{TidyPage};
ghost use Rattle.recording.specs.SettleSteps.{Settles};
ghost use Rattle.recording.specs.Views.{most_struck, sought_of, WalksOn};
ghost use Rattle.recording.specs.WalkSteps.{MayWalk};

use crate::choose::choose_at;
use crate::news::News;
use crate::scan::Sought;
use crate::settle::{append_at, come_back};
use crate::strike::{more_struck, strike_at};
use crate::table::child_lying;
use ground::Box;
use pages::{Entry, PageAt};

// What the walk at a page hands back; first, which page took the second group, if the page was split.
#[derive(Clone, Copy)]
pub struct Walked {
    pub became: Option<u16>,
    pub sought: Sought,
    pub struck: u32,
}

fn leaf_entry(b: Box, v: u16) -> Entry
    ensures { result ≡ leaf_entry b v }
{
    Entry {
        place: b,
        gust: v,
        ..Entry::default()
    }
}

// What is left of the record is appended to the leaf, unless it is covered.
fn append_left(t: &mut [u16], v: u16, p: usize, found: Sought) -> Option<u16>
    requires { (table_fits t.old ≡ true) × TidyPage (page (pages_of t.old) p) }
    ensures { Settles t.old t.new result (leaf_settled found.covered (pages_of t.old) p (leaf_entry found.place v)) }
{
    if found.covered {
        return None;
    }
    append_at(t, p, leaf_entry(found.place, v), 0)
}

// All of the walk at a leaf.
fn at_leaf(t: &mut [u16], p: usize, s: Sought, struck: u32, news: &News) -> Walked
    requires { MayWalk 0 news.now.gust t.old news.now.sieve p (sought_of s) }
    ensures { WalksOn t.old t.new struck result (walk_down 0 news.now.gust (pages_of t.old) p (sought_of s)) }
{
    let found = news.scan_leaf(&PageAt::of(t, p), s);
    Walked {
        became: append_left(t, news.gust, p, found),
        sought: found,
        struck,
    }
}

// Page p, with n levels under it. Pages by value live in callees that have returned before the next level is begun.
pub fn walk_down(t: &mut [u16], n: usize, p: usize, s: Sought, struck: u32, news: &News) -> Walked
    requires { MayWalk n news.now.gust t.old news.now.sieve p (sought_of s) × (struck ≤ most_struck) }
    ensures { WalksOn t.old t.new struck result (walk_down n news.now.gust (pages_of t.old) p (sought_of s)) }
{
    if n == 0 {
        return at_leaf(t, p, s, struck, news);
    }
    let page = PageAt::of(t, p);
    let found = news.scan_index(&page, s);
    if found.covered {
        return Walked {
            became: None,
            sought: found,
            struck,
        };
    }
    let i = choose_at(&page, found.place);
    let child = usize::from(child_lying(t, p, i));
    let more = strike_at(t, n - 1, child, found.place, news);
    let lower = walk_down(t, n - 1, child, found, more_struck(struck, more), news);
    Walked {
        became: come_back(t, p, i, lower.became),
        ..lower
    }
}
