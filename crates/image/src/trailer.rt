// The trailer of an image: what stands after its last page, and points back to the root page.
// Its 22 bytes are eleven words, so they go through the loops that the table's go through.
ghost use Rattle.std.specs.Prelude.{◌≡◌, ◌+◌, ◌*◌, ◌/◌, ◌%◌, ◌^◌, ◌≤◌, ◌<◌, length};
ghost use Rattle.image.specs.Bytes.{word_bytes};
ghost use Rattle.image.specs.Image.{page_bytes, trailer_length, trailer_bytes, trailer_for, trailer_of, trailer_good, small_of};

use crate::words::read_words;
use pages::{Page, Small};

#[derive(Clone, Copy, Debug, Default, PartialEq, Eq)]
pub struct Trailer {
    // In bytes, from the trailer's start back to the root page.
    pub distance: u32,
    pub pages: u16,
    pub height: u16,
    pub accepted: u32,
    pub struck: u32,
    pub covered: u32,
    pub form: u16,
}

impl Trailer {
    pub const WORDS: usize = 11;

    pub const BYTES: usize = 2 * Trailer::WORDS;
    // The one place that says which form images have. Form 1 numbered days by another calendar, and is refused.
    pub const FORM: u16 = 2;

    // The trailer of an image: its last 22 bytes.
    pub fn read(image: &[u8]) -> Trailer
        requires { trailer_length ≤ length image.now }
        ensures { result ≡ trailer_of image.now }
    {
        let start = image.len() - Trailer::BYTES;
        let mut words = [0u16; Trailer::WORDS];
        read_words(&image[start..], &mut words);
        Trailer {
            distance: long(words[0], words[1]),
            pages: words[2],
            height: words[3],
            accepted: long(words[4], words[5]),
            struck: long(words[6], words[7]),
            covered: long(words[8], words[9]),
            form: words[10],
        }
    }

    // Whether refusal 8 is not given for an image of so many pages.
    pub fn good(self, form: u16, pages: usize) -> bool
        ensures { result ≡ trailer_good form pages self }
    {
        let distance = self.distance as usize;
        let back = distance / Page::IMAGE_BYTES;
        (self.form == form)
            & (usize::from(self.pages) == pages)
            & ((distance == Page::IMAGE_BYTES * back) & (1 <= back) & (back <= pages))
    }

    // The small record that a good trailer holds.
    pub fn small(self) -> Small
        ensures { result ≡ small_of self }
    {
        let back = self.distance / Page::IMAGE_BYTES as u32;
        Small {
            root: u32::from(self.pages).saturating_sub(back),
            height: u32::from(self.height),
            accepted: self.accepted,
            struck: self.struck,
            covered: self.covered,
        }
    }
}

// The words of the trailer for a book of so many pages. A number too great for its place is cut to its low bytes.
pub fn trailer_words(pages: usize, small: Small, form: u16) -> [u16; Trailer::WORDS]
    requires { page_bytes * pages < 2 ^ 64 }
    ensures { word_bytes result ≡ trailer_bytes (trailer_for form pages small) }
{
    let distance = Page::IMAGE_BYTES * pages.saturating_sub(small.root as usize);
    let accepted = small.accepted as usize;
    let struck = small.struck as usize;
    let covered = small.covered as usize;
    [
        low_word(distance),
        high_word(distance),
        low_word(pages),
        low_word(small.height as usize),
        low_word(accepted),
        high_word(accepted),
        low_word(struck),
        high_word(struck),
        low_word(covered),
        high_word(covered),
        form,
    ]
}

// A number is cut to its low four bytes, whatever it is. By way of bytes a half would be four of `to_le_bytes`, cut and put together again.
fn low_word(x: usize) -> u16
    ensures { result ≡ x % 65536 }
{
    (x % 65536) as u16
}

fn high_word(x: usize) -> u16
    ensures { result ≡ x / 65536 % 65536 }
{
    (x / 65536 % 65536) as u16
}

fn long(low: u16, high: u16) -> u32
    ensures { result ≡ low + 65536 * high }
{
    u32::from(low) + 65536 * u32::from(high)
}
