// The saved image: all pages in order, each word low byte first, then a trailer of 22 bytes that points back.
// Every function's promise is an equation with a definition, so it settles every byte, word and answer.
#![tactic(auto)]

mod trailer;
mod words;

ghost use Rattle.std.specs.Prelude.{◌≡◌, ◌+◌, ◌*◌, length};
ghost use Rattle.image.specs.Image.{trailer_length, image_of, image_pages, table_of};

use pages::{Page, Small};
pub use trailer::Trailer;
use trailer::trailer_words;
use words::{read_words, write_words};

// How many pages an image of some length has. None is refusal 7: the length fits no number of pages that a book may have.
pub fn image_pages(length: usize) -> Option<usize>
    ensures { result ≡ image_pages length }
{
    let pages = length / Page::IMAGE_BYTES;
    let fits = length % Page::IMAGE_BYTES == Trailer::BYTES;
    (fits & (1 <= pages) & (pages <= Page::MOST)).then_some(pages)
}

// Saves a book into a buffer of the image's length.
pub fn encode(table: &[u16], small: Small, form: u16, out: &mut [u8])
    requires { length out.old ≡ 2 * length table.now + trailer_length }
    ensures { out.new ≡ image_of form table.now small }
{
    let start = 2 * table.len();
    write_words(table, &mut out[..start]);
    let trailer = trailer_words(table.len() / Page::WORDS, small, form);
    write_words(&trailer, &mut out[start..]);
}

// Loads the pages of an image into a table of its size. The trailer is read apart.
pub fn decode(image: &[u8], table: &mut [u16])
    requires { length image.now ≡ 2 * length table.old + trailer_length }
    ensures { table.new ≡ table_of image.now }
{
    let end = image.len() - Trailer::BYTES;
    read_words(&image[..end], table);
}
