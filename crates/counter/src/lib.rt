// The counter program's whole work but for reading and writing: bytes of input become bytes to print.
#![tactic(auto)]

mod answering;
mod feeding;
mod kept;

ghost use Rattle.std.specs.Prelude.{◌≡◌, [], length};

pub use feeding::{feed, finish, open};
use kept::Kept;
use lines::Line;
use pages::Small;

// Between two chunks of input, beside the table: the small record, the line so far, and the bytes printed so far.
#[derive(Clone, Copy)]
pub struct State {
    pub small: Small,
    line: Kept,
    pub printed: usize,
}

impl State {
    // Bytes kept of a line: one more than the longest has, so that a longer one is known.
    pub const LINE: usize = Line::LONGEST + 1;

    // With a book, at the start of a line.
    pub fn of(small: Small) -> State
        ensures { result ≡ record { small = small; line = []; printed = 0 } }
    {
        State {
            small,
            line: Kept::new(),
            printed: 0,
        }
    }

    // How many bytes of the line so far are kept.
    pub fn held(&self) -> usize
        ensures { result ≡ length self.now.line }
    {
        self.line.len()
    }

    // What was printed is written: the next answers go to the buffer's start.
    pub fn written(&mut self)
        ensures { self.new ≡ record self.old { printed = 0 } }
    {
        self.printed = 0;
    }
}
