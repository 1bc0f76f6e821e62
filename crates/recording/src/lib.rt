// Recording: strike, cut, cover, place, split, and put right.
// The walk is thin: a page is held by value only in functions that return before the next level is begun.
#![tactic(auto)]

mod call;
mod choose;
mod look;
mod news;
mod refusal;
mod root;
mod scan;
mod settle;
mod sound;
mod strike;
mod table;
mod walk;

pub use call::{record, record_sound};

// How a record was taken: Kept, Cut (kept after a cut) or Covered.
#[derive(Clone, Copy, Debug, PartialEq, Eq)]
pub enum Outcome {
    Kept,
    Cut,
    Covered,
}

// The answer: the outcome, and how many records were struck.
#[derive(Clone, Copy, Debug, PartialEq, Eq)]
pub struct Recorded {
    pub outcome: Outcome,
    pub struck: u32,
}
