// What `taglist` prints of a tag, laid down in a lent buffer. The text is defined in `specs/Listing.antt`.
#![tactic(auto)]

ghost use Rattle.std.specs.Prelude.{◌≡◌, [], ◌∷◌, ◌+◌, ◌*◌, ◌≤◌, ◌<◌, length};
ghost use Rattle.format.specs.Bytes.{filled};
ghost use Rattle.format.specs.Pieces.{Stored};
ghost use Rattle.format.specs.Sheet.{count_in, entries_in, sheet_of};
ghost use Rattle.format.specs.Numbers.{refusal_given, refusal_place};
ghost use Rattle.listing.specs.Listing.{decimal, leading, hex_digit, hex_of, line_of, lines_of, counted, elements_text, placed_text, refused_text, sheet_room, listing};

use format::Refusal;
use strings::put_bytes;

// Each `put_` function stores a piece of the text in `out` from `at` on, leaves the rest of `out` as it is, and answers the place behind
// the piece.

// The digit of n that counts `unit`s, where n has any.
fn put_digit(out: &mut [u8], at: usize, n: usize, unit: usize) -> usize
    requires { (at < length out.old) × (0 < unit) }
    ensures { Stored out.old at (leading unit n) result out.new }
{
    if n < unit {
        return at;
    }
    put_bytes(out, at, &[b'0' + (n / unit % 10) as u8])
}

// A number below 10,000, in decimal.
fn put_decimal(out: &mut [u8], at: usize, n: usize) -> usize
    requires { (at + 4 ≤ length out.old) × (n < 10000) }
    ensures { Stored out.old at (decimal n) result out.new }
{
    let thousands = put_digit(out, at, n, 1000);
    let hundreds = put_digit(out, thousands, n, 100);
    let tens = put_digit(out, hundreds, n, 10);
    put_bytes(out, tens, &[b'0' + (n % 10) as u8])
}

// The digit of a number below 16: 0 to 9, A to F.
#[tactic(auto, unfolding(crate::specs::Listing::hex_digit))]
fn hex_digit(d: u8) -> u8
    requires { d < 16 }
    ensures { result ≡ hex_digit d }
{
    if d <= 9 { b'0' + d } else { b'A' + (d - 10) }
}

// Two digits for each byte.
fn put_hex(out: &mut [u8], at: usize, s: &[u8]) -> usize
    requires { at + length (hex_of s.now) ≤ length out.old }
    ensures { Stored out.old at (hex_of s.now) result out.new }
{
    let mut end = at;
    for b in s {
        end = put_bytes(out, end, &[hex_digit(b / 16), hex_digit(b % 16)]);
    }
    end
}

// A word, a number, and the line's end.
fn put_counted(out: &mut [u8], at: usize, word: &[u8], n: usize) -> usize
    requires { (at + length word.now + 5 ≤ length out.old) × (n < 10000) }
    ensures { Stored out.old at (counted word.now n) result out.new }
{
    let number = put_bytes(out, at, word);
    let end = put_decimal(out, number, n);
    put_bytes(out, end, b"\n")
}

// A line for an element: its number, a blank, its bytes in hex.
fn put_line(out: &mut [u8], at: usize, number: u8, bytes: &[u8]) -> usize
    requires { at + (6 + 2 * length bytes.now) ≤ length out.old }
    ensures { Stored out.old at (line_of number bytes.now) result out.new }
{
    let blank = put_decimal(out, at, usize::from(number));
    let hex = put_bytes(out, blank, b" ");
    let end = put_hex(out, hex, bytes);
    put_bytes(out, end, b"\n")
}

// A line for each of the `count` entries of a sheet. `body` is where the bytes of entry i begin.
fn put_lines(out: &mut [u8], at: usize, sheet: &[u8], count: usize) -> usize
    requires { (sheet_of (entries_in sheet.now) ≡ sheet.now) × (count ≡ count_in sheet.now) × (at + 2 * length sheet.now ≤ length out.old) }
    ensures { Stored out.old at (lines_of (entries_in sheet.now)) result out.new }
{
    let mut end = at;
    let mut body = 2 + 4 * count;
    for i in 0..count {
        let head = 2 + 4 * i;
        let next = body + usize::from(sheet[head + 3]);
        end = put_line(out, end, sheet[head], &sheet[body..next]);
        body = next;
    }
    end
}

// The count of a sheet's entries, and a line for each.
fn put_elements(out: &mut [u8], sheet: &[u8]) -> usize
    requires { (sheet_of (entries_in sheet.now) ≡ sheet.now) × (length sheet.now ≤ sheet_room) × (14 + 2 * length sheet.now ≤ length out.old) }
    ensures { Stored out.old 0 (elements_text (entries_in sheet.now)) result out.new }
{
    let count = strings::word(sheet[0], sheet[1]);
    let lines = put_counted(out, 0, b"elements ", count);
    put_lines(out, lines, sheet, count)
}

// The line of a refusal for damage: the number, a blank, and the place.
fn put_placed(out: &mut [u8], number: usize, place: usize) -> usize
    requires { (18 ≤ length out.old) × (number < 10000) × (place < 10000) }
    ensures { Stored out.old 0 (placed_text number place) result out.new }
{
    let at = put_bytes(out, 0, b"refused ");
    let blank = put_decimal(out, at, number);
    put_counted(out, blank, b" ", place)
}

// The line of a refusal.
fn put_refusal(out: &mut [u8], refusal: Refusal) -> usize
    requires { (18 ≤ length out.old) × (refusal_place (refusal_given refusal) 0 < 10000) }
    ensures { Stored out.old 0 (refused_text (refusal_given refusal)) result out.new }
{
    match refusal {
        Refusal::Plain(reason) => put_counted(out, 0, b"refused ", u32::from(reason) as usize),
        Refusal::Placed { damage, place } => put_placed(out, u32::from(damage) as usize, place),
    }
}

// What `taglist` prints of a tag, laid down at the front of `out`, which else stays the same; answers its length. Any bytes will do.
pub fn list(tag: &[u8], out: &mut [u8; 20480]) -> usize
    ensures { (result ≡ length (listing tag.now)) × (out.new ≡ filled (listing tag.now) out.old) }
{
    let mut sheet = [0; 8192];
    match reading::read(tag, &mut sheet) {
        Ok(n) => put_elements(out, &sheet[..n]),
        Err(refusal) => put_refusal(out, refusal),
    }
}
