// Whether a book is well-formed: one flat pass over the table, for every table.
// Each page is tested once by itself and against its children, and counts whom it names; in the end each page
// that is not free and not the root has to be named exactly once. No page is walked to, so nothing is revisited.
#![tactic(auto)]

mod entries;
mod marks;
mod page;
mod verdict;

pub use verdict::check;
