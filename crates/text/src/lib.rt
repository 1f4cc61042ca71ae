// What is text: well-formed UTF-8, letter by letter, without 00 to 1F and 7F. The rows that decide are in `format`, specs/Text.antt.
#![tactic(auto)]

ghost use Rattle.std.specs.Prelude.{◌<◌, ◌≤◌, ◌≡◌, length};
ghost use Rattle.format.specs.Bytes.{all, between};
ghost use Rattle.format.specs.Text.{inside, tail, text};
ghost use Rattle.text.specs.Letters.{Letter, behind, Second};

// Is b a byte that goes on with a letter?
fn goes_on(b: u8) -> bool
    ensures { result ≡ inside tail b }
{
    strings::within(0x80, 0xBF, b)
}

// Can b be the second byte of a letter of three or four, which begins with first?
fn goes_second(first: u8, b: u8) -> bool
    requires { (0xE0 ≤ first) × (first ≤ 0xF4) }
    ensures { Second first (behind first) b result }
{
    match first {
        0xE0 => strings::within(0xA0, 0xBF, b),
        0xED => strings::within(0x80, 0x9F, b),
        0xF0 => strings::within(0x90, 0xBF, b),
        0xF4 => strings::within(0x80, 0x8F, b),
        _ => goes_on(b),
    }
}

// The length of the letter that s begins with, if it begins with one. Past the end is 00, and that goes on with no letter. Letters of three
// and of four are judged apart: where `goes_second` is called for both at once, the compiler makes a table.
fn letter(s: &[u8]) -> Option<usize>
    requires { 0 < length s.now }
    ensures { Letter s.now result }
{
    let first = strings::byte_at(s, 0);
    if strings::within(0x20, 0x7E, first) {
        return Some(1);
    }
    let second = strings::byte_at(s, 1);
    if strings::within(0xC2, 0xDF, first) {
        return goes_on(second).then_some(2);
    }
    if strings::within(0xE0, 0xEF, first) {
        let three = goes_second(first, second) && goes_on(strings::byte_at(s, 2));
        return three.then_some(3);
    }
    if strings::within(0xF0, 0xF4, first) {
        let four = goes_second(first, second)
            && goes_on(strings::byte_at(s, 2))
            && goes_on(strings::byte_at(s, 3));
        return four.then_some(4);
    }
    None
}

// Are all bytes 20 to 7E? The fold goes on past another: so the compiler looks at many bytes at once.
fn is_plain(s: &[u8]) -> bool
    ensures { result ≡ all (between 0x20 0x7E) s.now }
{
    s.iter()
        .fold(true, |plain, b| plain & strings::within(0x20, 0x7E, *b))
}

// Is s text, well-formed UTF-8 without 00 to 1F and 7F? Where not all bytes are letters by themselves, one letter a turn, of one to four bytes:
// so no `for`.
pub fn is_text(s: &[u8]) -> bool
    ensures { result ≡ text s.now }
{
    if is_plain(s) {
        return true;
    }
    let mut rest = s;
    while !rest.is_empty() {
        let Some(n) = letter(rest) else {
            return false;
        };
        rest = &rest[n..];
    }
    true
}
