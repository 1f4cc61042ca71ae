// The table of elements, and a row of them: it tells where each element stands, one part for each number of the table. What a row holds is
// said in `specs/Rows.antt`.
#![tactic(auto)]

ghost use Rattle.std.specs.Prelude.{◌≡◌, ◌++◌, get_or};
ghost use Rattle.format.specs.Bytes.{part};
ghost use Rattle.format.specs.Elements.{numbers, place_in, place};
ghost use Rattle.rows.specs.Rows.{Stands};

use format::Part;

// The places of the table by what stands there, and how many they are.
pub const ITEM: usize = 0;

pub const ISIL: usize = 1;

pub const SET: usize = 2;

pub const USAGE: usize = 3;

pub const MEDIA: usize = 4;

pub const OTHER_ITEM: usize = 5;

pub const OTHER_OWNER: usize = 6;

pub const PLACES: usize = 7;

const NUMBERS: [u8; PLACES] = [1, 3, 4, 5, 19, 22, 23];

// A row of elements.
pub type Row = [Part; PLACES];

// The number at a place of the table; 0 where there is none. No Option: callers have a place, and would only unwrap it.
pub fn number_at(k: usize) -> u8
    ensures { result ≡ get_or numbers k 0 }
{
    if k < PLACES { NUMBERS[k] } else { 0 }
}

// The place of a number among these; their count where it is none of them.
fn place_in(numbers: &[u8], number: u32) -> usize
    ensures { result ≡ place_in numbers.now number }
{
    numbers
        .iter()
        .position(|n| u32::from(*n) == number)
        .unwrap_or(numbers.len())
}

// The place of a number in the table; the count of places where it has none. No Option: of its two callers one
// tests it and the other, which has tested it, would unwrap.
pub fn place_of(number: u32) -> usize
    ensures { result ≡ place number }
{
    place_in(&NUMBERS, number)
}

// The bytes of an element: they stand in the source or, from its end on, in what was made. No struct of the two slices: contracts would
// read `pieces.entry.source.now ++ pieces.entry.made.now` for `src.now ++ made.now`.
pub fn piece<'a>(src: &'a [u8], made: &'a [u8], element: Part) -> &'a [u8]
    requires { Stands src.now made.now element }
    ensures { result.now ≡ part element.at element.len (src.now ++ made.now) }
{
    let Part { at, len } = element;
    let n = src.len();
    if at < n {
        &src[at..at + len]
    } else {
        &made[at - n..at - n + len]
    }
}
