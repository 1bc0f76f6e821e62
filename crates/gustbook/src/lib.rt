// The calls for C and Rust, which gustbook_c exports. A table, an image and a sheet are a pointer and a length there; the small record, a box and an answer are numbers that the caller lends.
// C takes no other forms: each call returns 0 or the refusal's number. The numbers of a box and a gust are 32 bits wide, so that one out of range is refused and never cut short.
#![tactic(auto)]

mod answers;
mod numbers;
mod strips;

ghost use Rattle.std.specs.Prelude.{◌≡◌};
ghost use Rattle.asking.specs.Asking.{asked};
ghost use Rattle.index.specs.Calls.{cleared, counted, saved, loaded};
ghost use Rattle.rules.specs.Record.{record_into};
ghost use Rattle.sheet.specs.Sheet.{sheet};
ghost use Rattle.gustbook.specs.Boundary.{small_of, box_of, left_in_numbers, record_leaves, ask_told, count_told};

use answers::number_of;
pub use answers::{InNumbers, tell};
use ground::numbered;
pub use numbers::{box_of, put_small, small_of};
use sheet::Row;
pub use strips::{gust_strip_ask, gust_strip_clear, gust_strip_record};
use wide::narrow;

// Refusal 1.
pub fn gust_clear(table: &mut [u16], small: &mut [u32; 5]) -> u32
    ensures { record { refusal = result; table = table.new; small = small.new } ≡ left_in_numbers (cleared table.old (small_of small.old)) }
{
    let mut s = small_of(small);
    let done = index::clear(table, &mut s);
    put_small(small, s);
    number_of(done)
}

// Refusals 1 to 6. The answer: 0 kept, 1 cut, 2 covered; the struck count.
pub fn gust_record(
    table: &mut [u16],
    small: &mut [u32; 5],
    place: &[u32; 6],
    gust: u32,
    answer: &mut [u32; 2],
) -> u32
    ensures { record { told = record { refusal = result; answer = answer.new }; table = table.new; small = small.new } ≡ record_leaves (record_into table.old (small_of small.old) (box_of place.now) gust) answer.old }
{
    let mut s = small_of(small);
    let said = recording::record(table, &mut s, box_of(place), narrow(gust));
    put_small(small, s);
    tell(numbered(said), answer)
}

// Refusals 1, 2 and 4. The answer: 1 and the gust, or 0 and 0 for nothing; the pages opened.
pub fn gust_ask(table: &[u16], small: &[u32; 5], place: &[u32; 6], answer: &mut [u32; 3]) -> u32
    ensures { record { refusal = result; answer = answer.new } ≡ ask_told (asked table.now (small_of small.now) (box_of place.now)) answer.old }
{
    let said = asking::ask(table, small_of(small), box_of(place));
    tell(numbered(said), answer)
}

// Refusal 11, of a sheet of more than 32 rows; 1, 2 and 4 go into the rows. An answer: as for gust_ask, and the refusal's number or 0 before it.
pub fn gust_ask_sheet(table: &[u16], small: &[u32; 5], rows: &mut [Row]) -> u32
    ensures { record { refusal = result; rows = rows.new } ≡ sheet table.now (small_of small.now) rows.old }
{
    number_of(sheet::ask_sheet(table, small_of(small), rows))
}

// Refusals 1 and 4. The answer: accepted, held, struck, covered.
pub fn gust_count(table: &[u16], small: &[u32; 5], answer: &mut [u32; 4]) -> u32
    ensures { record { refusal = result; answer = answer.new } ≡ count_told (counted table.now (small_of small.now)) answer.old }
{
    let said = index::count(table, small_of(small));
    tell(numbered(said), answer)
}

// Refusals 1, 7 and 4.
pub fn gust_save(table: &[u16], small: &[u32; 5], image: &mut [u8]) -> u32
    ensures { record { refusal = result; buffer = image.new } ≡ saved table.now (small_of small.now) image.old }
{
    number_of(index::save(table, small_of(small), image))
}

// Refusals 7, 1, 8 and 4. One that ends in 4 leaves the empty book.
pub fn gust_load(image: &[u8], table: &mut [u16], small: &mut [u32; 5]) -> u32
    ensures { record { refusal = result; table = table.new; small = small.new } ≡ left_in_numbers (loaded image.now table.old (small_of small.old)) }
{
    let mut s = small_of(small);
    let done = index::load(image, table, &mut s);
    put_small(small, s);
    number_of(done)
}
