// Tests that words are 0.
ghost use Rattle.std.specs.Prelude.{◌≡◌, length};
ghost use Rattle.pages.specs.Words.{all_zero};
ghost use Rattle.pages.specs.Laid.{words_laid, nothing_laid, laid_over, rest_over};

use crate::{Entry, EntryAt};

// No early exit: a test that is carried through runs over many words at a time.
pub fn are_zero(words: &[u16]) -> bool
    ensures { result ≡ all_zero words.now }
{
    words.iter().fold(true, |blank, word| blank & (*word == 0))
}

// Eight words, each the greatest of those that were laid there: it is 0 only if all of them were.
// So many entries need one test in the end, and the machine lays eight words at once.
#[derive(Clone, Copy)]
pub struct Laid {
    pub words: [u16; Laid::WORDS],
}

impl Laid {
    const WORDS: usize = 8;

    pub fn nothing() -> Laid
        ensures { result ≡ nothing_laid }
    {
        Laid {
            words: [0; Laid::WORDS],
        }
    }

    fn over(self, row: &[u16]) -> Laid
        requires { length row.now ≡ 8 }
        ensures { result ≡ laid_over self row.now }
    {
        let mut words = self.words;
        for i in 0..Laid::WORDS {
            words[i] = words[i].max(row[i]);
        }
        Laid { words }
    }

    // What stands in a leaf entry after its gust: fourteen words, in two rows of eight that share two.
    pub fn over_rest(self, entry: &EntryAt) -> Laid
        ensures { result ≡ rest_over self entry.now }
    {
        let words = entry.words();
        self.over(&words[Entry::WEAKEST..Entry::WEAKEST + Laid::WORDS])
            .over(&words[Entry::WORDS - Laid::WORDS..Entry::WORDS])
    }

    pub fn is_zero(self) -> bool
        ensures { result ≡ all_zero (words_laid self) }
    {
        are_zero(&self.words)
    }
}
