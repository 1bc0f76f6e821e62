// The flat pass, and its verdict.
ghost use Rattle.std.specs.Prelude.{true, ◌≡◌, ◌≤◌, length, replicate};
ghost use Rattle.pages.specs.Layout.{page_entries, most_pages, table_fits, pages_of};
ghost use Rattle.wellformed.specs.WellFormed.{leaf_entries, root_stands, counts_stand, checked};
ghost use Rattle.wellformed.specs.MarkLaws.{Counted};
ghost use Rattle.wellformed.specs.VerdictLaws.{found, held_if_well_formed};

use crate::marks::{mark_children, marks_stand};
use crate::page::page_passes;
use ground::Refusal;
use pages::{Page, PageAt, Small};

fn root_stands(t: &[u16], s: Small) -> bool
    ensures { result ≡ root_stands (pages_of t.now) s }
{
    let Some(root) = PageAt::get(t, s.root as usize) else {
        return false;
    };
    (u32::from(root.level()) == s.height) & (1 <= s.height)
}

fn held_in(page: &PageAt) -> u32
    ensures { (result ≤ page_entries) × (result ≡ length (leaf_entries page.now)) }
{
    if page.level() == 1 {
        page.in_use() as u32
    } else {
        0
    }
}

// How many records the leaves hold, if every page passes. The marks then say whom the pages name.
fn pass_over(t: &[u16], s: Small, marks: &mut [u8]) -> Option<u32>
    requires { (table_fits t.now ≡ true) × (marks.old ≡ replicate most_pages 0) }
    ensures finds { result ≡ found t.now s }
    ensures counted { Counted (pages_of t.now) marks.new }
{
    let mut stands = true;
    let mut held = 0;
    for p in 0..t.len() / Page::WORDS {
        let page = PageAt::of(t, p);
        stands &= page_passes(t, s, p);
        mark_children(&page, marks);
        held += held_in(&page);
    }
    stands.then_some(held)
}

fn counts_stand(s: Small, held: u32) -> bool
    ensures { result ≡ counts_stand s held }
{
    let sum = u64::from(held) + u64::from(s.struck) + u64::from(s.covered);
    (s.accepted <= Small::MOST_ACCEPTED) & (sum == u64::from(s.accepted))
}

fn held_records(t: &[u16], s: Small) -> Option<u32>
    ensures { result ≡ held_if_well_formed t.now s }
{
    if !pages::table_fits(t) {
        return None;
    }
    if !root_stands(t, s) {
        return None;
    }
    let mut marks = [0u8; Page::MOST];
    let held = pass_over(t, s, &mut marks)?;
    (marks_stand(t, s, &marks) & counts_stand(s, held)).then_some(held)
}

// How many records the book holds, if it is well-formed.
pub fn check(t: &[u16], s: Small) -> Result<u32, Refusal>
    ensures { result ≡ checked t.now s }
{
    held_records(t, s).ok_or(Refusal::Damaged)
}
