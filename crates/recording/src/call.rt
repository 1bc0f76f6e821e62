// The call: refused, with nothing changed, or recorded.
ghost use Rattle.std.specs.Prelude.{true, ◌≡◌};
ghost use Rattle.wellformed.specs.WellFormed.{well_formed};
ghost use Rattle.recording.specs.CallSteps.{called_of};
ghost use Rattle.rules.specs.Record.{record_into};

use crate::Recorded;
use crate::refusal::{accept, accept_sound};
use crate::sound::recorded;
use ground::{Box, Refusal};
use pages::Small;

pub fn record(t: &mut [u16], s: &mut Small, b: Box, v: u16) -> Result<Recorded, Refusal>
    ensures { called_of t.new s.new result ≡ record_into t.old s.old b v }
{
    accept(t, *s, b, v)?;
    Ok(recorded(t, s, b, v))
}

// The same on a book known to be well-formed, as every call of it leaves it: without the pass over the table.
pub fn record_sound(t: &mut [u16], s: &mut Small, b: Box, v: u16) -> Result<Recorded, Refusal>
    requires { well_formed t.old s.old ≡ true }
    ensures { called_of t.new s.new result ≡ record_into t.old s.old b v }
{
    accept_sound(t, *s, b, v)?;
    Ok(recorded(t, s, b, v))
}
