// Clearing: the empty book, whatever the table held.
ghost use Rattle.std.specs.Prelude.{◌≡◌};
ghost use Rattle.index.specs.Calls.{cleared};
ghost use Rattle.index.specs.CallLaws.{left_of};

use ground::Refusal;
use pages::Small;

// Refusal 1.
pub fn clear(t: &mut [u16], s: &mut Small) -> Result<(), Refusal>
    ensures { left_of t.new s.new result ≡ cleared t.old s.old }
{
    if !pages::table_fits(t) {
        return Err(Refusal::Table);
    }
    pages::clear(t);
    *s = Small::empty();
    Ok(())
}
