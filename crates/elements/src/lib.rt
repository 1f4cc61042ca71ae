// Judging the elements of a sheet: document 01, "Elements". The slices are lent, nothing is copied or changed.
#![tactic(auto)]

ghost use Rattle.std.specs.Prelude.{◌≡◌, ◌&&◌, ◌<◌};
ghost use Rattle.format.specs.Chain.{carriable};
ghost use Rattle.format.specs.Elements.{set_info, some_text, media, shape, form, value, known};

use rows::PLACES;

// Is it text, and not empty.
fn some_text(s: &[u8]) -> bool
    ensures { result ≡ some_text s.now }
{
    !s.is_empty() && text::is_text(s)
}

// Is it set information, element 4: parts, then ordinal, both at most 255, ordinal at most parts.
#[tactic(auto, unfolding(format::specs::Elements::set_info))]
fn set_info(s: &[u8]) -> bool
    ensures { result ≡ set_info s.now }
{
    match s {
        [a, b, c, d] => {
            let parts = strings::word(*a, *b);
            let ordinal = strings::word(*c, *d);
            parts <= 255 && ordinal <= 255 && ordinal <= parts
        }
        _ => false,
    }
}

// Is it a media format, element 19: one byte, not 00.
fn media(s: &[u8]) -> bool
    ensures { result ≡ media s.now }
{
    match s {
        [x] => *x != 0,
        _ => false,
    }
}

// Can the block be carried, element 255: whole and well formed, no filler, ID not 1.
#[tactic(auto, unfolding(format::specs::Chain::carriable, format::specs::Chain::well_formed))]
fn carriable(block: &[u8]) -> bool
    ensures { result ≡ carriable block.now }
{
    if block.len() < 3 {
        return false;
    }
    let id = chain::id_of(block);
    let library = id == 1;
    if library {
        return false;
    }
    let x = if id <= 100 {
        strings::xor_of(&block[1..])
    } else {
        0
    };
    chain::formed_by(block, x)
}

// Have the bytes the shape of the element with this number; an unknown number has none.
#[tactic(auto, unfolding(format::specs::Elements::shape))]
fn shaped(number: u32, s: &[u8]) -> bool
    ensures { result ≡ shape number s.now }
{
    match number {
        1 | 22 => some_text(s),
        3 => fields::isil(s),
        4 => set_info(s),
        5 => s.len() == 1,
        19 => media(s),
        23 => fields::alternative(s),
        255 => carriable(s),
        _ => false,
    }
}

// Does editing take this number: one of the table other than 255.
#[tactic(auto, unfolding(format::specs::Elements::known))]
fn known(number: u32) -> bool
    ensures { result ≡ known number }
{
    rows::place_of(number) < PLACES
}

// Have the bytes the form of the element with this number: its shape, in at most 255 bytes; 255 is a carried block.
#[tactic(auto, unfolding(format::specs::Elements::form))]
pub fn formed(number: u32, value: &[u8]) -> bool
    ensures { result ≡ form number value.now }
{
    value.len() <= 255 && shaped(number, value)
}

// Does editing take this number, and are the bytes a value of it: no bytes means remove.
#[tactic(auto, using(crate::proofs::Numbers::removing, crate::proofs::Numbers::setting))]
pub fn editable(number: u32, bytes: &[u8]) -> bool
    ensures { result ≡ known number && value number bytes.now }
{
    known(number)
        && if bytes.is_empty() {
            number != 4 && number != 5
        } else {
            formed(number, bytes)
        }
}
