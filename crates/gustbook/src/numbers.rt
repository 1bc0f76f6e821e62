// The small record and a box as the numbers that cross the boundary: the exports promise of each number what becomes of it, so numbers are lent.
ghost use Rattle.std.specs.Prelude.{◌≡◌};
ghost use Rattle.wide.specs.Wide.{narrowed};
ghost use Rattle.gustbook.specs.Boundary.{small_of, numbers_of, wide_of};

use ground::Box;
use pages::Small;
use wide::{Span, WideBox};

pub fn small_of(numbers: &[u32; 5]) -> Small
    ensures { result ≡ small_of numbers.now }
{
    Small {
        root: numbers[0],
        height: numbers[1],
        accepted: numbers[2],
        struck: numbers[3],
        covered: numbers[4],
    }
}

pub fn put_small(numbers: &mut [u32; 5], s: Small)
    ensures { numbers.new ≡ numbers_of s }
{
    *numbers = [s.root, s.height, s.accepted, s.struck, s.covered];
}

// The box for the book's calls, in the 16 bits of a page's word.
pub fn box_of(numbers: &[u32; 6]) -> Box
    ensures { result ≡ narrowed (wide_of numbers.now) }
{
    let east = Span {
        low: numbers[0],
        high: numbers[1],
    };
    let north = Span {
        low: numbers[2],
        high: numbers[3],
    };
    let day = Span {
        low: numbers[4],
        high: numbers[5],
    };
    WideBox { east, north, day }.narrow()
}
