// Marks: how often each page is named, up to twice. Once too often is as bad as any number too often.
// They stay numbers: a mark is a count, and goes up with each name.
ghost use Rattle.std.specs.Prelude.{◌≡◌, ◌+◌, ◌<◌, ◌≤◌, min, length};
ghost use Rattle.pages.specs.Layout.{pages_in, pages_of};
ghost use Rattle.wellformed.specs.WellFormed.{children, every_below};
ghost use Rattle.wellformed.specs.Flat.{named_once};
ghost use Rattle.wellformed.specs.MarkLaws.{mark, marked, Counted, due_mark};

use pages::{Page, PageAt, Small};

fn one_more(x: u8) -> u8
    ensures { result ≡ min 2 (x + 1) }
{
    x.saturating_add(1).min(2)
}

fn mark_page(marks: &mut [u8], c: usize)
    ensures { marks.new ≡ mark marks.old c }
{
    if c < marks.len() {
        marks[c] = one_more(marks[c]);
    }
}

pub fn mark_children(page: &PageAt, marks: &mut [u8])
    ensures { marks.new ≡ marked marks.old (children page.now) }
{
    if page.level() < 2 {
        return;
    }
    for i in 0..page.in_use() {
        mark_page(marks, usize::from(page.entry(i).child()));
    }
}

// The root and a free page are named by nobody, any other page by one entry.
fn due_mark(t: &[u16], s: Small, p: usize) -> u8
    requires { p < pages_in t.now }
    ensures { result ≡ due_mark t.now s p }
{
    u8::from((PageAt::of(t, p).level() != 0) & (p != s.root as usize))
}

// Whether every page is named as often as it is due. Nothing ends the pass early: it is faster so.
pub fn marks_stand(t: &[u16], s: Small, marks: &[u8]) -> bool
    requires { (pages_in t.now ≤ length marks.now) × Counted (pages_of t.now) marks.now }
    ensures { result ≡ every_below (named_once (pages_of t.now) s) (pages_in t.now) }
{
    let pages = t.len() / Page::WORDS;
    (0..pages).fold(true, |stands, p| stands & (marks[p] == due_mark(t, s, p)))
}
