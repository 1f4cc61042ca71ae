// Judging fields that are parts of a tag or of a sheet. The slices are lent, nothing is copied or changed.
// What each answer means is said in `specs/Forms.antt`, over the definitions of `format`.
#![tactic(auto)]

ghost use Rattle.std.specs.Prelude.{◌≡◌, ◌||◌, map, length, take, drop};
ghost use Rattle.format.specs.Bytes.{is_empty, all, strip, up_to};
ghost use Rattle.format.specs.Fields.{capital, unit_byte, isil_of, isil, alternative, is_owner, marked, prefix_in};
ghost use Rattle.format.specs.Chain.{fields_in, beyond};
ghost use Rattle.fields.specs.Forms.{item_form, owner_form, library_form};

use format::Reason;

// What a good item field of the basic block holds: the marker 01, or text of so many bytes, 0 for nothing.
#[derive(Clone, Copy)]
pub enum Item {
    Marker,
    Text(usize),
}

// What a good owner field of the basic block holds: nothing; or from the third byte on the marker, the unit of an ISIL whose prefix stands
// in front, or an alternative owner, each of so many bytes.
#[derive(Clone, Copy)]
pub enum Owner {
    Nothing,
    Marker,
    Isil { prefix: usize, unit: usize },
    Alternative(usize),
}

// Block 1's fields: the media and usage bytes, 00 where missing, and the lengths of the item and owner fields, 0 where missing. No Options: 00
// and nothing are what the tag itself has there, and what the definitions say.
#[derive(Clone, Copy)]
pub struct LibraryParts {
    pub media: u8,
    pub item: usize,
    pub owner: usize,
    pub usage: u8,
}

// Is b a unit character, A-Z a-z 0-9 / - : ?
#[tactic(auto, unfolding(format::specs::Fields::unit_byte, format::specs::Fields::capital))]
fn is_unit(b: u8) -> bool
    ensures { result ≡ unit_byte b }
{
    matches!(b, b'A'..=b'Z' | b'a'..=b'z' | b'0'..=b'9' | b'/' | b'-' | b':')
}

// Is each byte of s a capital?
fn capitals(s: &[u8]) -> bool
    ensures { result ≡ all capital s.now }
{
    s.iter().all(|b| strings::within(b'A', b'Z', *b))
}

// Is each byte of s a unit character?
fn units(s: &[u8]) -> bool
    ensures { result ≡ all unit_byte s.now }
{
    s.iter().all(|b| is_unit(*b))
}

// The first n bytes of s, or all where there are fewer.
fn front(s: &[u8], n: usize) -> &[u8]
    ensures { result.now ≡ take n s.now }
{
    &s[..n.min(s.len())]
}

// The bytes of s from a place on, or none.
fn from(s: &[u8], at: usize) -> &[u8]
    ensures { result.now ≡ drop at s.now }
{
    &s[at.min(s.len())..]
}

// What s holds, without the 00 bytes at its end.
fn held(s: &[u8]) -> &[u8]
    ensures { result.now ≡ strip s.now }
{
    match s.iter().rposition(|b| *b != 0) {
        Some(last) => &s[..last + 1],
        None => &s[..0],
    }
}

// The bytes before the first b: all, where there is none.
fn up_to(s: &[u8], b: u8) -> &[u8]
    ensures { result.now ≡ up_to b s.now }
{
    match s.iter().position(|x| *x == b) {
        Some(first) => &s[..first],
        None => s,
    }
}

// How long the fields of s are, as many as `lens` has places: a 00 stands between them, missing ones are empty. Gives what follows the last
// and its 00.
fn find_fields<'a>(s: &'a [u8], lens: &mut [usize]) -> &'a [u8]
    ensures { (lens.new ≡ map length (fields_in (length lens.old) s.now)) × (result.now ≡ beyond (length lens.old) s.now) }
{
    let mut rest = s;
    for len in lens.iter_mut() {
        let field = up_to(rest, 0);
        *len = field.len();
        rest = from(rest, field.len() + 1);
    }
    rest
}

// Is s the marker 01?
#[tactic(auto, using(crate::proofs::Rules::unmarked), unfolding(format::specs::Bytes::same))]
fn is_marker(s: &[u8]) -> bool
    ensures { result ≡ marked s.now }
{
    matches!(s, [1])
}

// Are these an ISIL's two sides: 1 to 4 capitals, and 1 to 11 unit characters?
#[tactic(auto, unfolding(format::specs::Fields::isil_of))]
fn isil_of(prefix: &[u8], unit: &[u8]) -> bool
    ensures { result ≡ isil_of prefix.now unit.now }
{
    matches!(prefix.len(), 1..=4) && capitals(prefix) && matches!(unit.len(), 1..=11) && units(unit)
}

// Is s an ISIL? The first hyphen parts its sides.
#[tactic(auto, using(crate::proofs::Rules::cuts), unfolding(format::specs::Fields::isil))]
pub fn isil(s: &[u8]) -> bool
    ensures { result ≡ isil s.now }
{
    let prefix = up_to(s, b'-');
    isil_of(prefix, from(s, prefix.len() + 1))
}

// Is s an alternative owner: 02 or 03, then text?
#[tactic(auto, unfolding(format::specs::Fields::alternative))]
pub fn alternative(s: &[u8]) -> bool
    ensures { result ≡ alternative s.now }
{
    match s {
        [2 | 3, words @ ..] => !words.is_empty() && text::is_text(words),
        _ => false,
    }
}

// What the item field of a basic block holds; or refusal 6, it breaks its form.
#[tactic(auto, unfolding(crate::specs::Forms::item_form, crate::specs::Forms::item_parts, format::specs::Fields::good_item))]
pub fn item_in(field: &[u8]) -> Result<Item, Reason>
    ensures { result ≡ item_form field.now }
{
    let item = held(field);
    if is_marker(item) {
        return Ok(Item::Marker);
    }
    if text::is_text(item) {
        return Ok(Item::Text(item.len()));
    }
    Err(Reason::Field)
}

// The prefix of an ISIL in an owner field: one capital before a blank, or two capitals.
#[tactic(auto, unfolding(format::specs::Fields::prefix_in))]
fn prefix_in(field: &[u8]) -> &[u8]
    ensures { result.now ≡ prefix_in field.now }
{
    match field {
        [_, b' ', ..] => front(field, 1),
        _ => front(field, 2),
    }
}

// What the owner field of a basic block holds; or refusal 6. Its third byte chooses the form.
#[tactic(auto, unfolding(crate::specs::Forms::owner_form, crate::specs::Forms::owner_parts, format::specs::Fields::good_owner))]
pub fn owner_in(field: &[u8]) -> Result<Owner, Reason>
    ensures { result ≡ owner_form field.now }
{
    let owner = held(field);
    if owner.is_empty() {
        return Ok(Owner::Nothing);
    }
    let said = from(owner, 2);
    if is_marker(said) {
        return Ok(Owner::Marker);
    }
    if strings::byte_at(owner, 2) <= 3 {
        if alternative(said) {
            return Ok(Owner::Alternative(said.len()));
        }
        return Err(Reason::Field);
    }
    let prefix = prefix_in(owner);
    if isil_of(prefix, said) {
        return Ok(Owner::Isil {
            prefix: prefix.len(),
            unit: said.len(),
        });
    }
    Err(Reason::Field)
}

// Does an owner in block 1 stand: none, an alternative owner where it begins 02 or 03, else an ISIL?
#[tactic(auto, unfolding(format::specs::Fields::is_owner))]
fn owner_stands(owner: &[u8]) -> bool
    ensures { result ≡ (is_empty owner.now || is_owner owner.now) }
{
    match owner {
        [] => true,
        [2 | 3, ..] => alternative(owner),
        _ => isil(owner),
    }
}

// Block 1's fields; or refusal 6, one breaks its form. Given is the whole block, or no bytes where there is no block 1.
pub fn library_in(block: &[u8]) -> Result<LibraryParts, Reason>
    ensures { result ≡ library_form block.now }
{
    let payload = held(from(block, 4));
    let fields = from(payload, 1);
    let mut lens = [0; 2];
    let last = find_fields(fields, &mut lens);
    let item = front(fields, lens[0]);
    let owner = front(from(fields, item.len() + 1), lens[1]);
    if 1 < last.len() || !text::is_text(item) || !owner_stands(owner) {
        return Err(Reason::Field);
    }
    Ok(LibraryParts {
        media: strings::byte_at(payload, 0),
        item: item.len(),
        owner: owner.len(),
        usage: strings::byte_at(last, 0),
    })
}
