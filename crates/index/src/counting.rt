// Counting: the four numbers of a well-formed book.
ghost use Rattle.std.specs.Prelude.{◌≡◌};
ghost use Rattle.index.specs.Calls.{count_answer, count_says};

use crate::Counts;
use ground::Refusal;
use pages::Small;

// Refusals 1 and 4, in this order.
pub fn count(t: &[u16], s: Small) -> Result<Counts, Refusal>
    ensures { count_says result ≡ count_answer t.now s }
{
    if !pages::table_fits(t) {
        return Err(Refusal::Table);
    }
    let held = wellformed::check(t, s)?;
    Ok(Counts {
        accepted: s.accepted,
        held,
        struck: s.struck,
        covered: s.covered,
    })
}
