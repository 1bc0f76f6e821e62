// A gust, in tenths of a metre a second.
ghost use Rattle.std.specs.Prelude.{◌≡◌};
ghost use Rattle.ground.specs.Boxes.{gust_passes};

#[derive(Clone, Copy, Debug, PartialEq, Eq)]
pub struct Gust {
    pub tenths: u16,
}

impl Gust {
    pub const LIMIT: u16 = 1200;

    // Whether refusal 3 is not given.
    pub fn passes(self) -> bool
        ensures { result ≡ gust_passes self }
    {
        self.tenths <= Gust::LIMIT
    }
}
