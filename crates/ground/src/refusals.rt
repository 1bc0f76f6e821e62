// Why the book says no. Refusal N is rule 7.N.
ghost use Rattle.std.specs.Prelude.{◌≡◌};
ghost use Rattle.ground.specs.Refusals.{number, numbered};

#[derive(Clone, Copy, Debug, PartialEq, Eq)]
pub enum Refusal {
    Table,
    Box,
    Gust,
    Damaged,
    Spent,
    Full,
    Size,
    Trailer,
    Line,
    Strip,
    Sheet,
}

// The number that a clerk reads, and that the calls for C return.
impl From<Refusal> for u32 {
    ghost from_gives = { λ refusal result. result ≡ number refusal };

    fn from(refusal: Refusal) -> u32 {
        match refusal {
            Refusal::Table => 1,
            Refusal::Box => 2,
            Refusal::Gust => 3,
            Refusal::Damaged => 4,
            Refusal::Spent => 5,
            Refusal::Full => 6,
            Refusal::Size => 7,
            Refusal::Trailer => 8,
            Refusal::Line => 9,
            Refusal::Strip => 10,
            Refusal::Sheet => 11,
        }
    }
}

// An answer, or the number of the refusal.
pub fn numbered<T>(said: Result<T, Refusal>) -> Result<T, u32>
    ensures { result ≡ numbered said }
{
    match said {
        Ok(answer) => Ok(answer),
        Err(refusal) => Err(u32::from(refusal)),
    }
}
