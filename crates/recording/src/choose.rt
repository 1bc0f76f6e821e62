// Step 4: the entry whose box grows least in size to cover the box; ties: smaller size, then lower place.
ghost use Rattle.std.specs.Prelude.{cond, ◌≡◌, ltb};
ghost use Rattle.split.specs.Split.{less_or_tie};
ghost use Rattle.pages.specs.Summary.{in_use};
ghost use Rattle.rules.specs.Recording.{choose};
ghost use Rattle.recording.specs.ChooseSteps.{choice_of};

use ground::Box;
use pages::{EntryAt, PageAt};

// A place, by how much its box grows, and its size.
#[derive(Clone, Copy)]
pub struct Choice {
    pub at: usize,
    pub growth: u64,
    pub size: u64,
}

impl Choice {
    fn of(b: Box, entry: &EntryAt, at: usize) -> Choice
        ensures { result ≡ choice_of b entry.now at }
    {
        let place = entry.place();
        let size = place.size();
        Choice {
            at,
            growth: split::cover_size(place, b) - size,
            size,
        }
    }

    // The later one only if it goes before.
    fn or_later(self, later: Choice) -> Choice
        ensures { result ≡ cond (less_or_tie later.growth self.growth (ltb later.size self.size)) later self }
    {
        let takes = (later.growth < self.growth)
            | ((later.growth == self.growth) & (later.size < self.size));
        if takes { later } else { self }
    }
}

// Among the entries of a page, where they lie.
pub fn choose_at(page: &PageAt, b: Box) -> usize
    ensures { result ≡ choose b (in_use page.now) }
{
    let mut best = Choice::of(b, &page.entry(0), 0);
    for i in 1..page.in_use() {
        best = best.or_later(Choice::of(b, &page.entry(i), i));
    }
    best.at
}
