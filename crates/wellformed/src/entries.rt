// The entries in use of one page, tested where they lie.
ghost use Rattle.std.specs.Prelude.{◌≡◌};
ghost use Rattle.pages.specs.Layout.{pages_of};
ghost use Rattle.pages.specs.Summary.{in_use};
ghost use Rattle.pages.specs.Words.{every};
ghost use Rattle.wellformed.specs.WellFormed.{leaf_entry_stands};
ghost use Rattle.wellformed.specs.PassLaws.{record_stands, lower_and_exact};

use ground::Gust;
use pages::{EntryAt, Laid, PageAt};

// Whether an entry's box and gust are legal.
fn record_stands(entry: &EntryAt) -> bool
    ensures { result ≡ record_stands entry.now }
{
    let gust = Gust {
        tenths: entry.gust(),
    };
    entry.place().legal() & gust.passes()
}

// What stands after the gusts is laid together, and tested once in the end.
pub fn leaf_entries_stand(page: &PageAt) -> bool
    ensures { result ≡ every leaf_entry_stands (in_use page.now) }
{
    let mut stands = true;
    let mut rest = Laid::nothing();
    for i in 0..page.in_use() {
        let entry = page.entry(i);
        stands &= record_stands(&entry);
        rest = rest.over_rest(&entry);
    }
    stands & rest.is_zero()
}

// Whether the child that an entry names is one level lower, and the entry exact for it.
fn index_entry_stands(t: &[u16], entry: &EntryAt, level: u16) -> bool
    ensures { result ≡ lower_and_exact (pages_of t.now) level entry.now }
{
    let number = entry.child();
    let Some(child) = PageAt::get(t, usize::from(number)) else {
        return false;
    };
    let below = u32::from(child.level()) + 1;
    (below == u32::from(level)) & entry.is(child.summary(number))
}

pub fn index_entries_stand(t: &[u16], page: &PageAt) -> bool
    ensures { result ≡ every (lower_and_exact (pages_of t.now) page.now.level) (in_use page.now) }
{
    let level = page.level();
    (0..page.in_use()).fold(
        true,
        |stands, i| stands & index_entry_stands(t, &page.entry(i), level),
    )
}
