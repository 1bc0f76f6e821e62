// When the book says no to a record: refusals 1 to 6, the first that applies.
ghost use Rattle.std.specs.Prelude.{true, ◌≡◌};
ghost use Rattle.ground.specs.Refusals.{number_of};
ghost use Rattle.wellformed.specs.WellFormed.{well_formed};
ghost use Rattle.recording.specs.RefusalSteps.{of_the_record, of_the_book};
ghost use Rattle.rules.specs.Record.{refusal};

use ground::{Box, Gust, Refusal};
use pages::Small;

// By the record alone.
fn may_come(b: Box, v: u16) -> Result<(), Refusal>
    ensures { number_of result ≡ of_the_record b v }
{
    if !b.legal() {
        return Err(Refusal::Box);
    }
    let gust = Gust { tenths: v };
    if !gust.passes() {
        return Err(Refusal::Gust);
    }
    Ok(())
}

// By a sound book alone.
fn has_room(t: &[u16], s: Small) -> Result<(), Refusal>
    ensures { number_of result ≡ of_the_book t.now s }
{
    if s.accepted == Small::MOST_ACCEPTED {
        return Err(Refusal::Spent);
    }
    let height = s.height as usize;
    if !pages::free_at_least(t, height + 1) {
        return Err(Refusal::Full);
    }
    Ok(())
}

pub fn accept(t: &[u16], s: Small, b: Box, v: u16) -> Result<(), Refusal>
    ensures { number_of result ≡ refusal t.now s b v }
{
    if !pages::table_fits(t) {
        return Err(Refusal::Table);
    }
    may_come(b, v)?;
    wellformed::check(t, s)?;
    has_room(t, s)
}

// The same on a book known to be well-formed, without the pass over the table.
pub fn accept_sound(t: &[u16], s: Small, b: Box, v: u16) -> Result<(), Refusal>
    requires { well_formed t.now s ≡ true }
    ensures { number_of result ≡ refusal t.now s b v }
{
    may_come(b, v)?;
    has_room(t, s)
}
