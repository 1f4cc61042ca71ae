// The row of a readable tag's elements, and its carried blocks.
ghost use Rattle.std.specs.Prelude.{◌≡◌, ◌+◌, ◌≤◌, length};
ghost use Rattle.format.specs.Bytes.{filled};
ghost use Rattle.look.specs.Row.{usage_by, front_made, item_by, alternative_item_by, piece_by, row_by, made_by, RowLies};

use crate::judge::Fields;
use crate::owner;
use chain::Chain;
use fields::{Item, LibraryParts};
use format::Part;
use rows::Row;

// The part of no bytes.
pub const NOWHERE: Part = Part { at: 0, len: 0 };

// Element 5: block 1's usage byte, or else the main qualifier of byte 0.
fn usage_of(tag: &[u8], library: LibraryParts) -> u8
    requires { 1 ≤ length tag.now }
    ensures { result ≡ usage_by tag.now library }
{
    if library.usage == 0 {
        tag[0] / 16 * 16
    } else {
        library.usage
    }
}

// Set information and usage, made at the front.
fn make_front(tag: &[u8], library: LibraryParts, made: &mut [u8])
    requires { (3 ≤ length tag.now) × (5 ≤ length made.old) }
    ensures { made.new ≡ filled (front_made tag.now library) made.old }
{
    made[..5].copy_from_slice(&[tag[1], 0, tag[2], 0, usage_of(tag, library)]);
}

// Elements 1 and 22: block 1's item is 1 under the marker, else 22.
fn item_parts(block: usize, found: Fields) -> (Part, Part)
    requires { block ≤ 2048 }
    ensures { (result.0 ≡ item_by block found.item found.library) × (result.1 ≡ alternative_item_by block found.item found.library) }
{
    let item = Part {
        at: block + 5,
        len: found.library.item,
    };
    match found.item {
        Item::Marker => (item, NOWHERE),
        Item::Text(len) => (Part { at: 3, len }, item),
    }
}

// Where each element stands, in the order of the table: block 1 begins at `block`. What the tag does not have in sheet form is made: set
// information, usage, and an ISIL's hyphen.
pub fn fill_row(tag: &[u8], block: usize, found: Fields, row: &mut Row, made: &mut [u8; 19])
    requires { RowLies tag.now block found }
    ensures { (row.new ≡ row_by tag.now block found) × (made.new ≡ filled (made_by tag.now found.owner found.library) made.old) }
{
    let library = found.library;
    let behind = tag.len();
    make_front(tag, library, made);
    owner::make_isil(tag, found, made);
    let (item, other_item) = item_parts(block, found);
    let (isil, other_owner) = owner::owner_parts(tag, block + 6 + library.item, found);
    // a media byte 00 is none
    let media = usize::from(library.media != 0);
    *row = [
        item,
        isil,
        Part { at: behind, len: 4 },
        Part {
            at: behind + 4,
            len: 1,
        },
        Part {
            at: block + 4,
            len: media,
        },
        other_item,
        other_owner,
    ];
}

// Where the carried blocks stand in one piece, by what the survey gives: there are some, block 1 is the first or there is none, and the
// chain has no filler. Else a part of no bytes.
pub fn one_piece(survey: Chain) -> Part
    requires { survey.library.len + survey.size ≤ 2048 }
    ensures { result ≡ piece_by survey }
{
    let library = survey.library;
    let at = 34 + library.len;
    let first = library.len == 0 || library.at == 34;
    if survey.size != 0 && first && at + survey.size == survey.end {
        Part {
            at,
            len: survey.size,
        }
    } else {
        NOWHERE
    }
}
