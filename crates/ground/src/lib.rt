// The ground floor of the gust book: boxes of ground and days, gusts, and the calendar.
// The limits stand here, each once, with the type that it bounds. No function asks anything of its caller.
#![tactic(auto)]

mod boxes;
mod dates;
mod gusts;
mod refusals;

pub use boxes::{Box, Cut, Range};
pub use dates::Date;
pub use gusts::Gust;
pub use refusals::{Refusal, numbered};
