// Answers as numbers: the refusal is returned, and the answer is written where the caller lends room. A refusal writes nothing.
ghost use Rattle.std.specs.Prelude.{◌≡◌, ℕ, List};
ghost use Rattle.ground.specs.Refusals.{number_of};
ghost use Rattle.recording.specs.RecordSteps.{outcome_is};
ghost use Rattle.gustbook.specs.Boundary.{outcome_number, told_in, recorded_numbers, asked_numbers, counts_numbers};

use asking::Asked;
use ground::Refusal;
use index::Counts;
use recording::{Outcome, Recorded};

// An answer in the numbers that a caller lends for it.
pub trait InNumbers<const N: usize> {
    ghost numbers: { Self → List ℕ };

    fn in_numbers(self) -> [u32; N]
        ensures { result ≡ numbers self };
}

impl InNumbers<2> for Recorded {
    ghost numbers = { recorded_numbers };

    fn in_numbers(self) -> [u32; 2] {
        [outcome_number(self.outcome), self.struck]
    }
}

impl InNumbers<3> for Asked {
    ghost numbers = { asked_numbers };

    fn in_numbers(self) -> [u32; 3] {
        match self.gust {
            None => [0, 0, self.pages],
            Some(gust) => [1, gust as u32, self.pages],
        }
    }
}

impl InNumbers<4> for Counts {
    ghost numbers = { counts_numbers };

    fn in_numbers(self) -> [u32; 4] {
        [self.accepted, self.held, self.struck, self.covered]
    }
}

fn outcome_number(o: Outcome) -> u32
    ensures { result ≡ outcome_number (outcome_is o) }
{
    match o {
        Outcome::Kept => 0,
        Outcome::Cut => 1,
        Outcome::Covered => 2,
    }
}

// What a call with an answer returns, and the answer written.
pub fn tell<T: InNumbers<N>, const N: usize>(said: Result<T, u32>, answer: &mut [u32; N]) -> u32
    ensures { record { refusal = result; answer = answer.new } ≡ told_in T.numbers said answer.old }
{
    match said {
        Ok(told) => {
            *answer = told.in_numbers();
            0
        }
        Err(number) => number,
    }
}

// What a call without one returns.
pub fn number_of(done: Result<(), Refusal>) -> u32
    ensures { result ≡ number_of done }
{
    match done {
        Ok(()) => 0,
        Err(refusal) => u32::from(refusal),
    }
}
