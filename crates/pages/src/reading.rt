// Reading a table: whether it is one, and a box where it lies. The rules fix the place of every word, so each part is read from its own.
#![tactic(auto, unfolding(crate::specs::Layout::box_at))]

ghost use Rattle.std.specs.Prelude.{◌≡◌, ◌+◌, ◌≤◌, length};
ghost use Rattle.pages.specs.Layout.{table_fits, range_at, box_at};

use crate::Page;
use ground::{Box, Range};

// Whether refusal 1 is not given.
pub fn table_fits(t: &[u16]) -> bool
    ensures { result ≡ table_fits t.now }
{
    let words = t.len();
    let pages = words / Page::WORDS;
    (1 <= pages) & (pages <= Page::MOST) & (pages * Page::WORDS == words)
}

fn range_at(t: &[u16], k: usize) -> Range
    requires { k + 2 ≤ length t.now }
    ensures { result ≡ range_at t.now k }
{
    Range {
        low: t[k],
        high: t[k + 1],
    }
}

pub fn box_at(t: &[u16], k: usize) -> Box
    requires { k + 6 ≤ length t.now }
    ensures { result ≡ box_at t.now k }
{
    Box {
        east: range_at(t, k),
        north: range_at(t, k + 2),
        day: range_at(t, k + 4),
    }
}
