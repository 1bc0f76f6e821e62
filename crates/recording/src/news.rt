// What a record brings to every page that it comes to.
ghost use Rattle.std.specs.Prelude.{◌≡◌};

use ground::Box;
use sieve::Sieve;

// Its gust, and the sieve of the box that was handed in.
#[derive(Drop)]
pub struct News {
    pub gust: u16,
    pub sieve: Sieve,
}

impl News {
    pub fn of(b: Box, v: u16) -> News
        ensures gust { result.gust ≡ v }
        ensures question { result.sieve ≡ b }
    {
        News {
            gust: v,
            sieve: Sieve::of(b),
        }
    }
}
