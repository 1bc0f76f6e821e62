// Asking: the strongest gust that touches a box, and the pages opened to find it. It answers for every table, spoilt ones too.
#![tactic(auto)]

mod search;

ghost use Rattle.std.specs.Prelude.{◌≡◌};
ghost use Rattle.asking.specs.Asking.{asked, says, told};

use ground::{Box, Refusal};
use pages::Small;

// The strongest gust that touches, if one does, and the pages opened.
#[derive(Clone, Copy, Debug, PartialEq, Eq)]
pub struct Asked {
    pub gust: Option<u16>,
    pub pages: u32,
}

// The answer to a question, and what it says in the rules' numbers. Refusals 1, 2 and 4, in this order.
pub fn ask(t: &[u16], s: Small, q: Box) -> Result<Asked, Refusal>
    ensures { (result ≡ asked t.now s q) × (says result ≡ told t.now s q) }
{
    if !pages::table_fits(t) {
        return Err(Refusal::Table);
    }
    if !q.legal() {
        return Err(Refusal::Box);
    }
    search::search_book(t, s, q)
}
