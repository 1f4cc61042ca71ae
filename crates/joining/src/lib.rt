// The identifier of a UHF tag put together. `Elements` of crate `identifier` says what it is, `Calls` what the call comes to.
#![tactic(auto)]

ghost use Rattle.std.specs.Prelude.{◌≡◌, [], ◌∷◌, ◌+◌, ◌≤◌, ◌<◌, length};
ghost use Rattle.format.specs.Answers.{need};
ghost use Rattle.format.specs.Numbers.{given};
ghost use Rattle.format.specs.Pieces.{Stored};
ghost use Rattle.words.specs.Calls.{Fills};
ghost use Rattle.identifier.specs.Parts.{dot};
ghost use Rattle.identifier.specs.SetDigits.{digits};
ghost use Rattle.identifier.specs.Elements.{three, good_elements};
ghost use Rattle.identifier.specs.Calls.{joining};
ghost use Rattle.joining.specs.Laying.{isil_front, set_end};

use format::Reason;
use strings::put_bytes;

// 9 where an element has not its form, or the identifier holds a dot.
#[tactic(auto, unfolding(format::specs::Answers::need, format::specs::Elements::value, identifier::specs::Elements::good_elements))]
fn elements_stage(item: &[u8], isil: &[u8], set: &[u8]) -> Result<(), Reason>
    ensures { given result ≡ need 9 (good_elements (three item.now isil.now set.now)) }
{
    let good = elements::formed(4, set)
        && elements::formed(1, item)
        && identifier::is_dotless(item)
        && (isil.is_empty() || elements::formed(3, isil));
    if good { Ok(()) } else { Err(Reason::Value) }
}

// How long the ISIL is with its dot.
fn isil_length(isil: &[u8]) -> usize
    requires { length isil.now ≤ 255 }
    ensures { result ≡ length (isil_front isil.now) }
{
    if isil.is_empty() { 0 } else { isil.len() + 1 }
}

// How long the set information is with its dot, whatever the ordinal. A choice of three lengths costs less than the sum.
fn set_length(total: u8) -> usize
    ensures { (result ≡ length (set_end total 0)) × (result ≤ 7) }
{
    if total == 0 {
        return 0;
    }
    match identifier::width(total) {
        1 => 3,
        2 => 5,
        _ => 7,
    }
}

// Each `put_` function stores a piece from `at` on, or at the front, and answers the place behind it.

// A number in `count` digits, from the last to the first.
fn put_digits(text: &mut [u8], at: usize, count: usize, number: u8) -> usize
    requires { at + count ≤ length text.old }
    ensures { Stored text.old at (digits count number) result text.new }
{
    let mut n = number;
    for i in (0..count).rev() {
        text[at + i] = b'0' + n % 10;
        n /= 10;
    }
    at + count
}

// The ISIL and a dot.
fn put_isil(text: &mut [u8], isil: &[u8]) -> usize
    requires { length (isil_front isil.now) ≤ length text.old }
    ensures { Stored text.old 0 (isil_front isil.now) result text.new }
{
    if isil.is_empty() {
        return 0;
    }
    let end = put_bytes(text, 0, isil);
    put_bytes(text, end, b".")
}

// A dot and the set information.
fn put_set(text: &mut [u8], at: usize, total: u8, ordinal: u8) -> usize
    requires { at + length (set_end total ordinal) ≤ length text.old }
    ensures { Stored text.old at (set_end total ordinal) result text.new }
{
    if total == 0 {
        return at;
    }
    let count = identifier::width(total);
    let first = put_bytes(text, at, b".");
    let second = put_digits(text, first, count, total);
    put_digits(text, second, count, ordinal)
}

// The identifier of the elements 1, 3 and 4: its length, and just that much of the buffer filled; or refusal 9 or 2, and nothing changed. An empty
// `isil` is none.
pub fn put_together(item: &[u8], isil: &[u8], set: &[u8], text: &mut [u8]) -> Result<usize, Reason>
    ensures { Fills (joining (three item.now isil.now set.now) text.old) result text.new }
{
    elements_stage(item, isil, set)?;
    let size = isil_length(isil) + item.len() + set_length(set[0]);
    if text.len() < size {
        return Err(Reason::Room);
    }
    let first = put_isil(text, isil);
    let end = put_bytes(text, first, item);
    put_set(text, end, set[0], set[2]);
    Ok(size)
}
