// The split of nine entries, on values: a full page and a ninth entry in, two pages out.
// Only boxes choose, so the work is done on boxes and places; entries are moved once, at the end.
#![tactic(auto)]

mod covers;
mod filling;
mod places;
mod placing;
mod seeds;
mod side;

pub use covers::cover_size;
pub use filling::{Halves, split};
