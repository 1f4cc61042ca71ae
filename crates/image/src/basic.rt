// The basic block, with 00 in the CRC's place.
ghost use Rattle.std.specs.Prelude.{◌≡◌, not, ◌||◌, ◌∷◌, ◌+◌, ◌≤◌, length, get_or};
ghost use Rattle.format.specs.Bytes.{is_empty};
ghost use Rattle.format.specs.Pieces.{Stored};
ghost use Rattle.format.specs.Fields.{item_field, packed, basic_owner, owner_field};
ghost use Rattle.format.specs.Layout.{first_byte, owner_width};
ghost use Rattle.image.specs.Laying.{Blank, OwnerFits, IsilFits};

use strings::put_bytes;

// Bytes 0 to 18: usage, parts, ordinal, and the item or its marker.
pub fn put_front(draft: &mut [u8], item: &[u8], set: &[u8], usage: u8)
    requires { Blank 0 draft.old × (19 ≤ length draft.old) × (length set.now ≡ 4) }
    ensures { Stored draft.old 0 (first_byte usage ∷ get_or set.now 0 0 ∷ get_or set.now 2 0 ∷ item_field item.now) 19 draft.new }
{
    draft[0] = usage / 16 * 16 + 1;
    draft[1] = set[0];
    draft[2] = set[2];
    if 16 < item.len() {
        draft[3] = 1;
    } else {
        put_bytes(draft, 3, item);
    }
}

// The owner field, at byte 21, with an ISIL that it holds: without its hyphen, a blank after a prefix of one letter.
fn put_isil(draft: &mut [u8], owner: &[u8])
    requires { IsilFits owner.now draft.old }
    ensures { Stored draft.old 21 (packed owner.now) (21 + length (packed owner.now)) draft.new }
{
    let (second, from) = if owner[1] == b'-' {
        (b' ', 2)
    } else {
        (owner[1], 3)
    };
    draft[21] = owner[0];
    draft[22] = second;
    put_bytes(draft, 23, &owner[from..]);
}

// The owner field, at byte 21: the marker for an owner that block 1 holds, nothing, or the owner in a basic form.
pub fn put_owner(draft: &mut [u8], owner: &[u8], behind: bool)
    requires { OwnerFits owner.now draft.old × (behind ≡ not (is_empty owner.now || basic_owner (owner_width (length draft.old)) owner.now)) }
    ensures { Stored draft.old 21 (owner_field (owner_width (length draft.old)) owner.now) (21 + owner_width (length draft.old)) draft.new }
{
    if behind {
        draft[23] = 1;
        return;
    }
    match owner {
        [] => {}
        [0..=3, ..] => {
            put_bytes(draft, 23, owner);
        }
        _ => put_isil(draft, owner),
    }
}
