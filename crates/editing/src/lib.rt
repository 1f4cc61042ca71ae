// Editing one element on a tag.
#![tactic(auto)]

ghost use Rattle.std.specs.Prelude.{◌≡◌, true, ◌&&◌, [], ◌∷◌, ◌++◌, ◌+◌, ◌≤◌, leb, length, get_or, take, drop, set, replicate};
ghost use Rattle.format.specs.Answers.{need, in_order};
ghost use Rattle.format.specs.Elements.{place, known, value};
ghost use Rattle.format.specs.Pieces.{from, nowhere};
ghost use Rattle.format.specs.Calls.{own_layout};
ghost use Rattle.format.specs.Numbers.{given, Edits};
ghost use Rattle.look.specs.View.{Sighted};
ghost use Rattle.image.specs.Drafting.{Fresh};
ghost use Rattle.pages.specs.Storing.{Sized};

use format::{Edited, Part, Reason, Refusal};
use look::View;
use rows::Row;

// Edits one element of a tag: no bytes means remove. The count of pages changed and the old element's length, just that much of the
// old-element buffer filled, and the tag is the writer's own layout of the edited elements; or the refusal, and nothing changed.
pub fn edit(
    tag: &mut [u8],
    locks: &[u8],
    number: u32,
    bytes: &[u8],
    old: &mut [u8],
) -> Result<Edited, Refusal>
    ensures { Edits tag.old locks.now number bytes.now old.old result tag.new old.new }
{
    pages::size_stage(tag.len(), locks)?;
    // a short draft for a short tag, as in writing
    if tag.len() <= 256 {
        edit_by::<256>(tag, locks, number, bytes, old)
    } else {
        edit_by::<2048>(tag, locks, number, bytes, old)
    }
}

// Edits by way of a draft of N bytes, of which it takes as many as the tag has.
fn edit_by<const N: usize>(
    tag: &mut [u8],
    locks: &[u8],
    number: u32,
    bytes: &[u8],
    old: &mut [u8],
) -> Result<Edited, Refusal>
    requires { Sized tag.old locks.now × (length tag.old ≤ N) × (N ≤ 2048) }
    ensures { Edits tag.old locks.now number bytes.now old.old result tag.new old.new }
{
    let mut draft = [0u8; N];
    let n = tag.len();
    edit_on(&mut draft[..n], tag, locks, number, bytes, old)
}

// Is the tag the layout of what it holds. Its CRC is right, so where all else is the same it is the layout's too, and none has to be
// computed.
fn is_own<'a>(tag: &'a [u8], made: &'a [u8], row: &Row, view: View, draft: &mut [u8]) -> bool
    requires { Sighted tag.now (replicate 19 0) row.now made.now view × Fresh draft.old tag.now }
    ensures { result ≡ own_layout tag.now }
{
    if view.blocks.len != view.size {
        return false;
    }
    let carried = rows::piece(tag, made, view.blocks);
    if image::draft(tag, made, row, carried, draft).is_err() {
        return false;
    }
    draft[19..21].copy_from_slice(&tag[19..21]);
    pages::same(draft, tag)
}

// 2 and 9: the room for the old element, and the new bytes.
#[tactic(auto, unfolding(format::specs::Answers::need, format::specs::Answers::in_order))]
fn value_stage(room: usize, number: u32, bytes: &[u8]) -> Result<(), Reason>
    ensures { given result ≡ in_order (need 2 (leb 255 room) ∷ need 9 (known number && value number bytes.now) ∷ []) tt }
{
    if room < 255 {
        return Err(Reason::Room);
    }
    if !elements::editable(number, bytes) {
        return Err(Reason::Value);
    }
    Ok(())
}

// Puts new bytes in the place of an element: they stand in `made` from byte 19 on, behind a tag of n bytes, and the row gets one store.
// Answers where the old ones stand.
#[tactic(auto, using(format::proofs::Slots::known_at))]
fn put(number: u32, bytes: &[u8], n: usize, row: &mut Row, made: &mut [u8; 274]) -> Part
    requires { (known number ≡ true) × (length bytes.now ≤ 255) × (n ≤ 2048) }
    ensures { (row.new ≡ set row.old (place number) (from (n + 19) (length bytes.now)))
        × (made.new ≡ take 19 made.old ++ (bytes.now ++ drop (19 + length bytes.now) made.old))
        × (result ≡ get_or row.old (place number) nowhere) }
{
    let k = rows::place_of(number);
    let was = row[k];
    strings::put_bytes(made, 19, bytes);
    row[k] = Part {
        at: n + 19,
        len: bytes.len(),
    };
    was
}

// Edits by way of a draft of 00, as long as the tag.
fn edit_on(
    draft: &mut [u8],
    tag: &mut [u8],
    locks: &[u8],
    number: u32,
    bytes: &[u8],
    old: &mut [u8],
) -> Result<Edited, Refusal>
    requires { Fresh draft.old tag.old × Sized tag.old locks.now }
    ensures { Edits tag.old locks.now number bytes.now old.old result tag.new old.new }
{
    let mut row = [Part { at: 0, len: 0 }; rows::PLACES];
    let mut seen = [0u8; 19];
    let view = look::look_at(tag, &mut row, &mut seen)?;
    if !is_own(tag, &seen, &row, view, draft) {
        return Err(Refusal::Plain(Reason::Loose));
    }
    value_stage(old.len(), number, bytes)?;
    // the new bytes, at most 255, stand behind what was made of the tag
    let mut made = [0u8; 274];
    strings::copy(&seen, &mut made);
    let was = put(number, bytes, tag.len(), &mut row, &mut made);
    strings::clear(draft);
    let carried = rows::piece(tag, &made, view.blocks);
    image::draft(tag, &made, &row, carried, draft)?;
    image::seal(draft);
    pages::lock_stage(draft, tag, locks)?;
    let length = strings::copy(rows::piece(tag, &made, was), old);
    let pages = pages::store(draft, tag);
    Ok(Edited { pages, old: length })
}
