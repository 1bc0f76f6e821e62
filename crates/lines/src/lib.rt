// The counter program's lines: what a clerk types becomes a call, and an answer becomes what is printed.
// Neither asks anything of its caller: every line of bytes has its meaning, and every answer its line.
#![tactic(auto)]

mod arguments;
mod printing;
mod reading;
mod text;
mod words;

pub use printing::{Answer, print};
pub use reading::{Line, parse};
