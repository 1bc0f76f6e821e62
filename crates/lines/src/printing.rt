// Printing an answer into a lent buffer, from a place on.
ghost use Rattle.std.specs.Prelude.{◌≡◌, ◌+◌, ◌<◌, ◌≤◌, length};
ghost use Rattle.lines.specs.Printing.{longest_answer, Prints};
ghost use Rattle.lines.specs.Filling.{Said};

use crate::text::Text;
// What the book says to a line.
#[derive(Clone, Copy, Debug, PartialEq, Eq)]
pub enum Answer {
    // The struck count of a record that was kept whole.
    Kept(u32),
    // Of one that was kept after a cut.
    Cut(u32),
    Covered(u32),
    // A gust in tenths, and the pages opened.
    Gust(u32, u32),
    // The pages opened.
    Nothing(u32),
    Counts {
        accepted: u32,
        held: u32,
        struck: u32,
        covered: u32,
    },
}

impl Answer {
    // In bytes, with the one that ends it: four numbers of ten digits and their words.
    pub const LONGEST: usize = 73;

    // All of its line but the end.
    fn put(self, line: &mut Text)
        requires { line.old.at + longest_answer ≤ length line.old.out.now }
        ensures same_buffer { line.new.out.ghost_name ≡ line.old.out.ghost_name }
        ensures said { Said (Ok self) line.old line.new }
        ensures most { line.new.at < line.old.at + longest_answer }
    {
        match self {
            Answer::Kept(struck) => line.push_labelled(b"kept struck ", struck),
            Answer::Cut(struck) => line.push_labelled(b"cut struck ", struck),
            Answer::Covered(struck) => line.push_labelled(b"covered struck ", struck),
            Answer::Gust(tenths, pages) => {
                line.push_labelled(b"gust ", tenths);
                line.push_labelled(b" pages ", pages);
            }
            Answer::Nothing(pages) => line.push_labelled(b"nothing pages ", pages),
            Answer::Counts {
                accepted,
                held,
                struck,
                covered,
            } => {
                line.push_labelled(b"accepted ", accepted);
                line.push_labelled(b" held ", held);
                line.push_labelled(b" struck ", struck);
                line.push_labelled(b" covered ", covered);
            }
        }
    }
}

// Prints an answer, or a refusal's number, at a place and gives the place after it; nothing where the longest answer would not fit.
pub fn print(said: Result<Answer, u32>, out: &mut [u8], at: usize) -> usize
    ensures { Prints said out.old out.new at result }
{
    if out.len().saturating_sub(at) < Answer::LONGEST {
        return at;
    }
    let mut line = Text { out, at };
    put(said, &mut line);
    line.push(b"\n");
    line.at
}

// All of the line but its end.
fn put(said: Result<Answer, u32>, line: &mut Text<'_>)
    requires { line.old.at + longest_answer ≤ length line.old.out.now }
    ensures same_buffer { line.new.out.ghost_name ≡ line.old.out.ghost_name }
    ensures said { Said said line.old line.new }
    ensures most { line.new.at < line.old.at + longest_answer }
{
    match said {
        Ok(answer) => answer.put(line),
        Err(number) => line.push_labelled(b"refused ", number),
    }
}
