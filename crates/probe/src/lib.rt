// Recording on a book known to be well-formed, exported for bench/ alone: a shop's own calls cannot know that, and are in gustbook.
#![tactic(auto)]

mod dates;

ghost use Rattle.std.specs.Prelude.{true, ◌≡◌};
ghost use Rattle.gustbook.specs.Boundary.{small_of, box_of, record_leaves};
ghost use Rattle.rules.specs.Record.{record_into};
ghost use Rattle.wellformed.specs.WellFormed.{well_formed};

use ground::numbered;
use gustbook::{box_of, put_small, small_of, tell};
use wide::narrow;

// As gust_record, without the pass over the table.
#[unsafe(no_mangle)]
pub extern "C" fn gust_probe_record_sound(
    table: &mut [u16],
    small: &mut [u32; 5],
    place: &[u32; 6],
    gust: u32,
    answer: &mut [u32; 2],
) -> u32
    requires { well_formed table.old (small_of small.old) ≡ true }
    ensures { record { told = record { refusal = result; answer = answer.new }; table = table.new; small = small.new } ≡ record_leaves (record_into table.old (small_of small.old) (box_of place.now) gust) answer.old }
{
    let mut s = small_of(small);
    let said = recording::record_sound(table, &mut s, box_of(place), narrow(gust));
    put_small(small, s);
    tell(numbered(said), answer)
}
