// The calls of gustbook, exported for C and Rust: a slice is a pointer and a length there, and the other references are pointers.
// Each export makes its call, and promises what that promises: an export is for C alone, and other crates need a function that they can call.
#![tactic(auto)]

mod strips;

ghost use Rattle.std.specs.Prelude.{◌≡◌};
ghost use Rattle.asking.specs.Asking.{asked};
ghost use Rattle.index.specs.Calls.{cleared, counted, saved, loaded};
ghost use Rattle.rules.specs.Record.{record_into};
ghost use Rattle.sheet.specs.Sheet.{sheet};
ghost use Rattle.gustbook.specs.Boundary.{small_of, box_of, left_in_numbers, record_leaves, ask_told, count_told};

use sheet::Row;

// Refusal 1.
#[unsafe(no_mangle)]
pub extern "C" fn gust_clear(table: &mut [u16], small: &mut [u32; 5]) -> u32
    ensures { record { refusal = result; table = table.new; small = small.new } ≡ left_in_numbers (cleared table.old (small_of small.old)) }
{
    gustbook::gust_clear(table, small)
}

// Refusals 1 to 6. The answer: 0 kept, 1 cut, 2 covered; the struck count.
#[unsafe(no_mangle)]
pub extern "C" fn gust_record(
    table: &mut [u16],
    small: &mut [u32; 5],
    place: &[u32; 6],
    gust: u32,
    answer: &mut [u32; 2],
) -> u32
    ensures { record { told = record { refusal = result; answer = answer.new }; table = table.new; small = small.new } ≡ record_leaves (record_into table.old (small_of small.old) (box_of place.now) gust) answer.old }
{
    gustbook::gust_record(table, small, place, gust, answer)
}

// Refusals 1, 2 and 4. The answer: 1 and the gust, or 0 and 0 for nothing; the pages opened.
#[unsafe(no_mangle)]
pub extern "C" fn gust_ask(
    table: &[u16],
    small: &[u32; 5],
    place: &[u32; 6],
    answer: &mut [u32; 3],
) -> u32
    ensures { record { refusal = result; answer = answer.new } ≡ ask_told (asked table.now (small_of small.now) (box_of place.now)) answer.old }
{
    gustbook::gust_ask(table, small, place, answer)
}

// Refusal 11, of a sheet of more than 32 rows; 1, 2 and 4 go into the rows. An answer: as for gust_ask, and the refusal's number or 0 before it.
#[unsafe(no_mangle)]
pub extern "C" fn gust_ask_sheet(table: &[u16], small: &[u32; 5], rows: &mut [Row]) -> u32
    ensures { record { refusal = result; rows = rows.new } ≡ sheet table.now (small_of small.now) rows.old }
{
    gustbook::gust_ask_sheet(table, small, rows)
}

// Refusals 1 and 4. The answer: accepted, held, struck, covered.
#[unsafe(no_mangle)]
pub extern "C" fn gust_count(table: &[u16], small: &[u32; 5], answer: &mut [u32; 4]) -> u32
    ensures { record { refusal = result; answer = answer.new } ≡ count_told (counted table.now (small_of small.now)) answer.old }
{
    gustbook::gust_count(table, small, answer)
}

// Refusals 1, 7 and 4.
#[unsafe(no_mangle)]
pub extern "C" fn gust_save(table: &[u16], small: &[u32; 5], image: &mut [u8]) -> u32
    ensures { record { refusal = result; buffer = image.new } ≡ saved table.now (small_of small.now) image.old }
{
    gustbook::gust_save(table, small, image)
}

// Refusals 7, 1, 8 and 4. One that ends in 4 leaves the empty book.
#[unsafe(no_mangle)]
pub extern "C" fn gust_load(image: &[u8], table: &mut [u16], small: &mut [u32; 5]) -> u32
    ensures { record { refusal = result; table = table.new; small = small.new } ≡ left_in_numbers (loaded image.now table.old (small_of small.old)) }
{
    gustbook::gust_load(image, table, small)
}
