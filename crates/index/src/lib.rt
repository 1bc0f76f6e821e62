// The calls of the book, beside asking and recording: clear, count, save and load. None asks anything of its caller.
#![tactic(auto)]

mod clearing;
mod counting;
mod images;

pub use clearing::clear;
pub use counting::count;
pub use images::{load, save};

// The four numbers of a book.
#[derive(Clone, Copy, Debug, PartialEq, Eq)]
pub struct Counts {
    pub accepted: u32,
    pub held: u32,
    pub struck: u32,
    pub covered: u32,
}
