// The writer's own layout of a row of elements, on a draft.
#![tactic(auto)]

mod basic;
mod blocks;
mod sizes;

ghost use Rattle.std.specs.Prelude.{◌≡◌, List, ◌++◌, ℕ, if◌then◌else◌};
ghost use Rattle.format.specs.Fields.{long};
ghost use Rattle.format.specs.Elements.{slot, clash};
ghost use Rattle.format.specs.Layout.{owner_of};
ghost use Rattle.rows.specs.Rows.{slots_at, Row};
ghost use Rattle.image.specs.Laying.{Lengths, Holds};
ghost use Rattle.image.specs.Drafting.{Draftable, Drafted, sealing};

use format::{Part, Reason};
use rows::Row;

// Do two elements clash: 3 with 23, or 22 with a 1 longer than 16 bytes.
fn clashing(row: &Row) -> bool
    ensures { (ss : List (List ℕ)) → Lengths ss row.now → result ≡ clash ss }
{
    let owners = row[rows::ISIL].len != 0 && row[rows::OTHER_OWNER].len != 0;
    let items = row[rows::OTHER_ITEM].len != 0 && 16 < row[rows::ITEM].len;
    owners || items
}

// Where the owner stands: the ISIL, or the alternative owner where there is none.
fn owner_in(row: &Row) -> Part
    ensures { (src made : List ℕ) → Row src made row.now → Holds src made result (owner_of (slots_at (src ++ made) row.now)) }
{
    if row[rows::ISIL].len == 0 {
        row[rows::OTHER_OWNER]
    } else {
        row[rows::ISIL]
    }
}

// Where that stands which block 1 has in its item field: an element 1 longer than 16 bytes, else 22.
fn item_in(row: &Row) -> Part
    ensures { (src made : List ℕ) → Row src made row.now → Holds src made result (let ss = slots_at (src ++ made) row.now in if long (slot ss 1) then slot ss 1 else slot ss 22) }
{
    if 16 < row[rows::ITEM].len {
        row[rows::ITEM]
    } else {
        row[rows::OTHER_ITEM]
    }
}

// The elements' layout on a draft of 00, but for the CRC; `Clash` where two clash, `Large` where there is no layout.
pub fn draft<'a>(
    src: &'a [u8],
    made: &'a [u8],
    row: &Row,
    carried: &[u8],
    draft: &mut [u8],
) -> Result<(), Reason>
    requires { Draftable src.now made.now row.now draft.old }
    ensures { Drafted src.now made.now row.now carried.now draft.old result draft.new }
{
    if clashing(row) {
        return Err(Reason::Clash);
    }
    let n = draft.len();
    let name = owner_in(row);
    let owner = rows::piece(src, made, name);
    let usage = rows::piece(src, made, row[rows::USAGE])[0];
    let media = strings::byte_at(rows::piece(src, made, row[rows::MEDIA]), 0);
    let behind = sizes::owner_behind(owner, n);
    let fields = [
        item_in(row),
        Part {
            len: behind,
            ..name
        },
        Part {
            len: sizes::usage_behind(usage),
            ..row[rows::USAGE]
        },
    ];
    let size = sizes::block_size(media, &fields);
    if !sizes::has_room(size, carried, n) {
        return Err(Reason::Large);
    }
    basic::put_front(
        draft,
        rows::piece(src, made, row[rows::ITEM]),
        rows::piece(src, made, row[rows::SET]),
        usage,
    );
    basic::put_owner(draft, owner, behind != 0);
    let at = 21 + sizes::owner_width(n);
    if size != 0 {
        blocks::put_library(src, made, &fields, &mut draft[at..at + size], media);
    }
    strings::put_bytes(draft, at + size, carried);
    Ok(())
}

// Puts the CRC over what the draft holds in its place, low byte first. A draft that is too short for it stays the same.
pub fn seal(draft: &mut [u8])
    ensures { draft.new ≡ sealing draft.old }
{
    if draft.len() < 21 {
        return;
    }
    let [low, high] = crc::of_tag(draft).to_le_bytes();
    draft[19..21].copy_from_slice(&[low, high]);
}
