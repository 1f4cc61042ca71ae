// Sizes: which owner needs block 1, how long that is, and whether all has room.
ghost use Rattle.std.specs.Prelude.{◌≡◌, ◌&&◌, ◌||◌, List, ℕ, ◌+◌, ◌%◌, ◌≤◌, eqb, leb, length, if◌then◌else◌};
ghost use Rattle.format.specs.Bytes.{is_empty, trim};
ghost use Rattle.format.specs.Fields.{basic_owner};
ghost use Rattle.format.specs.Chain.{separated, block_with};
ghost use Rattle.format.specs.Layout.{owner_width};
ghost use Rattle.image.specs.Laying.{Lengths, OwnerOrNone, Few};

use format::Part;

// The width of the owner field on n bytes.
pub fn owner_width(n: usize) -> usize
    requires { 21 ≤ n }
    ensures { result ≡ owner_width n }
{
    (n - 21).min(13)
}

// Needs the owner no block 1: there is none, or a field of `width` bytes holds it in a basic form.
fn is_basic(owner: &[u8], width: usize) -> bool
    requires { OwnerOrNone owner.now }
    ensures { result ≡ is_empty owner.now || basic_owner width owner.now }
{
    match owner {
        [] => true,
        [0..=3, ..] => owner.len() + 2 <= width,
        [_, b'-', ..] => owner.len() <= width,
        [_, _, b'-', ..] => owner.len() - 1 <= width,
        _ => false,
    }
}

// The length of the owner that block 1 holds, on a tag of n bytes: of one that the basic forms do not hold.
pub fn owner_behind(owner: &[u8], n: usize) -> usize
    requires { OwnerOrNone owner.now × (21 ≤ n) }
    ensures { result ≡ if is_empty owner.now || basic_owner (owner_width n) owner.now then 0 else length owner.now }
{
    if is_basic(owner, owner_width(n)) {
        0
    } else {
        owner.len()
    }
}

// The length of the usage byte that block 1 holds: there is none where the sub qualifier is 0.
pub fn usage_behind(usage: u8) -> usize
    ensures { result ≡ if eqb (usage % 16) 0 then 0 else 1 }
{
    usize::from(usage % 16 != 0)
}

// The length of block 1 with fields of these lengths: nothing, where there is neither a media byte nor a field.
pub fn block_size(media: u8, fields: &[Part]) -> usize
    requires { Few fields.now }
    ensures { (fs : List (List ℕ)) → Lengths fs fields.now → result ≡ length (block_with 1 (trim media (separated fs))) }
{
    let size = crate::blocks::fields_size(fields);
    if size == 0 && media == 0 { 0 } else { size + 5 }
}

// Have a block 1 of `size` bytes and the carried blocks behind it room on a tag of n bytes.
pub fn has_room(size: usize, carried: &[u8], n: usize) -> bool
    requires { 32 ≤ n }
    ensures { result ≡ leb size 255 && leb (21 + owner_width n + size + length carried.now) n }
{
    size <= 255 && 21 + owner_width(n) + size + carried.len() <= n
}
