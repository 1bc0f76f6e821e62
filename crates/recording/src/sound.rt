// Recording on a book known to be sound: the walk, the root put right, and the small record.
ghost use Rattle.std.specs.Prelude.{cond, ◌≡◌, ◌+◌, ◌≤◌, ◌<◌};
ghost use Rattle.pages.specs.Layout.{pages_of};
ghost use Rattle.wellformed.specs.WellFormed.{most_accepted};
ghost use Rattle.recording.specs.CallSteps.{called_of};
ghost use Rattle.rules.specs.Record.{answered};
ghost use Rattle.rules.specs.RecordLaws.{Accepted};
ghost use Rattle.rules.specs.Recording.{outcome_of, recorded};
ghost use Rattle.recording.specs.RecordSteps.{outcome_is, SmallMade};
ghost use Rattle.recording.specs.Views.{most_struck, sought_of};

use crate::root::{collapse, from_root, put_root_right};
use crate::scan::Sought;
use crate::table::level_of;
use crate::walk::Walked;
use crate::{Outcome, Recorded};
use ground::Box;
use pages::Small;

fn outcome_of(s: Sought) -> Outcome
    ensures { outcome_is result ≡ outcome_of (sought_of s) }
{
    if s.covered {
        return Outcome::Covered;
    }
    if s.cut {
        return Outcome::Cut;
    }
    Outcome::Kept
}

// Accepted rises by one, struck by the count, covered by one for Covered; the height is the root page's level.
fn small_after(t: &[u16], s: Small, w: Walked, root: u16) -> Small
    requires { (s.accepted < most_accepted) × (s.struck ≤ most_accepted) × (s.covered ≤ most_accepted) × (w.struck ≤ most_struck) }
    ensures { SmallMade t.now s w root result }
{
    Small {
        root: u32::from(root),
        height: u32::from(level_of(t, root)),
        accepted: s.accepted + 1,
        struck: s.struck + w.struck,
        covered: s.covered + u32::from(w.sought.covered),
    }
}

pub fn recorded(t: &mut [u16], s: &mut Small, b: Box, v: u16) -> Recorded
    requires { Accepted t.old s.old b v }
    ensures { called_of t.new s.new (Ok result) ≡ answered (recorded (pages_of t.old) s.old b v) }
{
    let root = s.root as u16;
    let height = s.height as usize;
    let w = from_root(t, height - 1, v, usize::from(root), Sought::handed_in(b));
    let top = put_root_right(t, w.became, root);
    let last = collapse(t, height, top);
    *s = small_after(t, *s, w, last);
    Recorded {
        outcome: outcome_of(w.sought),
        struck: w.struck,
    }
}
