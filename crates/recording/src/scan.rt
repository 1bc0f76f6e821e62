// Step 3: each candidate, in order and once, meets the box as already cut.
ghost use Rattle.std.specs.Prelude.{◌≡◌};
ghost use Rattle.rules.specs.Scan.{candidate};
ghost use Rattle.recording.specs.LookSteps.{on_two_axes};
ghost use Rattle.recording.specs.Views.{sought_of};

use ground::{Box, Cut};

// What is being recorded: the box as already cut, whether it was cut, and whether a candidate covers it: two facts, since what is covered may have been cut.
// It is copied at every page, and sixteen bytes are copied at once: the spare word, which means nothing, fills them up.
#[derive(Clone, Copy)]
pub struct Sought {
    pub place: Box,
    pub cut: bool,
    pub covered: bool,
    pub spare: u16,
}

// A box that covers another on fewer than two axes neither covers nor cuts it.
fn on_two_axes(x: Box, b: Box) -> bool
    ensures { result ≡ on_two_axes x b }
{
    let east = x.east.covers(b.east);
    let north = x.north.covers(b.north);
    let day = x.day.covers(b.day);
    (east & (north | day)) | (north & day)
}

impl Sought {
    pub fn handed_in(b: Box) -> Sought
        ensures { sought_of result ≡ Rattle.rules.specs.Scan.handed_in b }
    {
        Sought {
            place: b,
            cut: false,
            covered: false,
            spare: 0,
        }
    }

    // A box that is a candidate only if its gust reaches. Covered ends the walk: no later candidate is met.
    pub fn meet(self, reaches: bool, x: Box) -> Sought
        ensures { sought_of result ≡ candidate reaches x (sought_of self) }
    {
        if self.covered | !reaches | !on_two_axes(x, self.place) {
            return self;
        }
        match self.place.cut_by(x) {
            Cut::Covered => Sought {
                covered: true,
                ..self
            },
            Cut::Left(place) => Sought {
                place,
                cut: true,
                ..self
            },
            Cut::Unchanged => self,
        }
    }
}
