// One page, tested by itself and against its children.
ghost use Rattle.std.specs.Prelude.{◌≡◌, ◌<◌};
ghost use Rattle.pages.specs.Layout.{pages_in, pages_of};
ghost use Rattle.wellformed.specs.WellFormed.{least_count};
ghost use Rattle.wellformed.specs.PassLaws.{page_passes};

use crate::entries::{index_entries_stand, leaf_entries_stand};
use pages::{Page, PageAt, Small};

fn least_count(s: Small, p: usize, level: u16) -> u16
    ensures { result ≡ least_count s p level }
{
    if p == s.root as usize {
        if level == 1 { 0 } else { 2 }
    } else {
        1
    }
}

pub fn page_passes(t: &[u16], s: Small, p: usize) -> bool
    requires { p < pages_in t.now }
    ensures { result ≡ page_passes (pages_of t.now) s p }
{
    let page = PageAt::of(t, p);
    let level = page.level();
    if level == 0 {
        return page.is_zero();
    }
    let count = page.count();
    let fits = (least_count(s, p, level) <= count) & (count <= Page::MOST_COUNT);
    let rest = page.unused_is_zero();
    if level == 1 {
        return fits & leaf_entries_stand(&page) & rest;
    }
    fits & index_entries_stand(t, &page) & rest
}
