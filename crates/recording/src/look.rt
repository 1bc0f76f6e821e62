// Looking over the entries of a page where they lie: whether some are struck, and what they leave of the record.
// The sieve of a box in which the record lies passes over most of them, eight words at once.
ghost use Rattle.std.specs.Prelude.{◌&&◌, ◌≡◌, leb};
ghost use Rattle.ground.specs.Boxes.{covers};
ghost use Rattle.pages.specs.Summary.{in_use};
ghost use Rattle.recording.specs.LookSteps.{Within, Sees};
ghost use Rattle.rules.specs.Scan.{scan};
ghost use Rattle.recording.specs.Views.{sought_of};

use crate::news::News;
use crate::scan::Sought;
use pages::{EntryAt, PageAt};

impl News {
    fn strikes(&self, entry: &EntryAt) -> bool
        ensures { result ≡ covers self.now.sieve entry.now.place && leb entry.now.gust self.now.gust }
    {
        self.sieve.covers_place(entry) & (entry.gust() <= self.gust)
    }

    // Whether some entry of a page may be struck: what a smaller box strikes, the sieve's box covers.
    pub fn strikes_some(&self, page: &PageAt) -> bool
        ensures { Sees self.now.sieve self.now.gust (in_use page.now) result }
    {
        let mut some = false;
        for i in 0..page.in_use() {
            some |= self.strikes(&page.entry(i));
        }
        some
    }

    // A loop for either kind of page: one that tests the kind at each entry is slower.
    // Most entries are passed over, and then nothing is copied.
    pub fn scan_leaf(&self, page: &PageAt, s: Sought) -> Sought
        requires { Within self.now.sieve s.place }
        ensures { sought_of result ≡ scan 0 self.now.gust (in_use page.now) (sought_of s) }
    {
        let mut found = s;
        for i in 0..page.in_use() {
            let entry = page.entry(i);
            if self.sieve.touches_place(&entry) {
                let reaches = self.gust <= entry.gust();
                found = found.meet(reaches, entry.place());
            }
        }
        found
    }

    // The strongest box of an entry first, then its union box.
    pub fn scan_index(&self, page: &PageAt, s: Sought) -> Sought
        requires { Within self.now.sieve s.place }
        ensures { sought_of result ≡ scan 1 self.now.gust (in_use page.now) (sought_of s) }
    {
        let mut found = s;
        for i in 0..page.in_use() {
            let entry = page.entry(i);
            if self.sieve.touches_strongest(&entry) {
                let reaches = self.gust <= entry.gust();
                found = found.meet(reaches, entry.strongest());
            }
            if self.gust <= entry.weakest() {
                found = found.meet(true, entry.union());
            }
        }
        found
    }
}
