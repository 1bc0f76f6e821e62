// The words of a line, one after the other, parted by one space.
ghost use Rattle.std.specs.Prelude.{◌≡◌, [], ◌∷◌, ◌==◌, List, position, MatchOption};
ghost use Rattle.lines.specs.Lines.{Word, words, space};
ghost use Rattle.lines.specs.Cursor.{words_left};

use std::marker::Model;

// What is left of a line: nothing once its last word is read. The library's `split` would need its closure's type in every signature.
#[derive(Drop)]
pub struct Words<'a> {
    rest: Option<&'a [u8]>,
}

impl<'a> Model for Words<'a> {
    ghost Value = { List Word };

    ghost view = { λ w. words_left w.rest };
}

impl<'a> Words<'a> {
    pub fn of(line: &'a [u8]) -> Words<'a>
        ensures { result ≡ words line.now }
    {
        Words { rest: Some(line) }
    }

    pub fn next(&mut self) -> Option<&'a [u8]>
        ensures { MatchOption result ((self.old ≡ []) × (self.new ≡ [])) (λ word. self.old ≡ word.now ∷ self.new) }
    {
        let rest = self.rest?;
        match first_space(rest) {
            Some(end) => {
                self.rest = Some(&rest[end + 1..]);
                Some(&rest[..end])
            }
            None => {
                self.rest = None;
                Some(rest)
            }
        }
    }
}

fn first_space(line: &[u8]) -> Option<usize>
    ensures { result ≡ position (λ b. b == space) line.now }
{
    line.iter().position(|b| *b == b' ')
}
