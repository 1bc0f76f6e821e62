// A sheet of questions: each row is answered by itself, in order. It answers for every table, spoilt ones too.
#![tactic(auto)]

mod row;

ghost use Rattle.std.specs.Prelude.{◌≡◌};
ghost use Rattle.ground.specs.Refusals.{number_of};
ghost use Rattle.sheet.specs.Sheet.{sheet};

use ground::Refusal;
use pages::Small;
pub use row::{Row, answer_row};

// Each row is answered in its place. More than 32 rows are refused, before all else.
pub fn ask_sheet(t: &[u16], s: Small, rows: &mut [Row]) -> Result<(), Refusal>
    ensures { record { refusal = number_of result; rows = rows.new } ≡ sheet t.now s rows.old }
{
    if Row::MOST < rows.len() {
        return Err(Refusal::Sheet);
    }
    for row in rows.iter_mut() {
        *row = answer_row(t, s, *row);
    }
    Ok(())
}
