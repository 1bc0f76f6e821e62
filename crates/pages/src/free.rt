// Free pages, and the empty book. These ask nothing of the table.
ghost use Rattle.std.specs.Prelude.{◌≡◌, leb, drop};
ghost use Rattle.pages.specs.Layout.{pages_of};
ghost use Rattle.pages.specs.Free.{lowest_from, lowest_free, free_count, empty_table};

use crate::Page;

// The lowest page whose level is 0, if there is one.
pub fn lowest_free(t: &[u16]) -> Option<usize>
    ensures { result ≡ lowest_free (pages_of t.now) }
{
    lowest_free_from(t, 0)
}

// The lowest free page from page `from` on: for a caller who knows that no page below it is free.
pub fn lowest_free_from(t: &[u16], from: usize) -> Option<usize>
    ensures { result ≡ lowest_from from (drop from (pages_of t.now)) }
{
    for p in from..t.len() / Page::WORDS {
        if t[p * Page::WORDS] == 0 {
            return Some(p);
        }
    }
    None
}

// Whether at least n pages are free. The lowest are used first, so the search starts at the high end.
pub fn free_at_least(t: &[u16], n: usize) -> bool
    ensures { result ≡ leb n (free_count (pages_of t.now)) }
{
    let mut left = n;
    for p in (0..t.len() / Page::WORDS).rev() {
        if left == 0 {
            return true;
        }
        left -= usize::from(t[p * Page::WORDS] == 0);
    }
    left == 0
}

// Makes the empty book, whatever the table held.
pub fn clear(t: &mut [u16])
    ensures { t.new ≡ empty_table t.old }
{
    t.fill(0);
    if 0 < t.len() {
        t[0] = 1;
    }
}
