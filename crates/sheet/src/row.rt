// A question on a sheet, and the places for its answer: ten numbers, as a program hands them in.
ghost use Rattle.std.specs.Prelude.{◌≡◌};
ghost use Rattle.wide.specs.Wide.{narrowed};
ghost use Rattle.sheet.specs.Sheet.{question, told, filled, answered};

use asking::Asked;
use ground::{Box, Refusal};
use pages::Small;
use wide::{Span, WideBox};

// In numbers, the answer's too: C programs lend it.
#[repr(C)]
#[derive(Clone, Copy, Debug, PartialEq, Eq)]
pub struct Row {
    pub east_low: u32,
    pub east_high: u32,
    pub north_low: u32,
    pub north_high: u32,
    pub day_low: u32,
    pub day_high: u32,
    // The refusal's number, or 0.
    pub refusal: u32,
    // 1 and the gust, or 0 and 0 for nothing.
    pub any: u32,
    pub gust: u32,
    // The pages opened.
    pub pages: u32,
}

impl Row {
    // The most rows of a sheet.
    pub const MOST: usize = 32;

    // The question for the book's call, in the 16 bits of a page's word.
    fn place(self) -> Box
        ensures { result ≡ narrowed (question self) }
    {
        let east = Span {
            low: self.east_low,
            high: self.east_high,
        };
        let north = Span {
            low: self.north_low,
            high: self.north_high,
        };
        let day = Span {
            low: self.day_low,
            high: self.day_high,
        };
        WideBox { east, north, day }.narrow()
    }

    fn told(self, refusal: u32, any: u32, gust: u32, pages: u32) -> Row
        ensures { result ≡ told self refusal any gust pages }
    {
        Row {
            refusal,
            any,
            gust,
            pages,
            ..self
        }
    }

    fn filled(self, said: Result<Asked, Refusal>) -> Row
        ensures { result ≡ filled self said }
    {
        match said {
            Err(refusal) => self.told(u32::from(refusal), 0, 0, 0),
            Ok(Asked { gust: None, pages }) => self.told(0, 0, 0, pages),
            Ok(
                Asked {
                    gust: Some(gust),
                    pages,
                },
            ) => self.told(0, 1, u32::from(gust), pages),
        }
    }
}

// A row with its question answered. Refusals 1, 2 and 4, in this order, go into the row.
pub fn answer_row(t: &[u16], s: Small, row: Row) -> Row
    ensures { result ≡ answered t.now s row }
{
    let said = asking::ask(t, s, row.place());
    row.filled(said)
}
