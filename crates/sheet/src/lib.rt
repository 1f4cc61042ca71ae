// Judging a sheet, and telling where each element stands in it: document 01, "The sheet". The sheet is lent and stays the same.
// What the answer means is said in `specs/Scanning.antt`, over the definitions of `format`.
#![tactic(auto)]

ghost use Rattle.std.specs.Prelude.{◌≡◌, ◌+◌, ◌≤◌, length};
ghost use Rattle.format.specs.Elements.{places};
ghost use Rattle.format.specs.Sheet.{body_at, count_in, entries_in, right_sheet, good_values};
ghost use Rattle.sheet.specs.Heads.{RightOf, HeadOf};
ghost use Rattle.sheet.specs.Scanning.{row_in, carried_at, Scanned};

use format::{Part, Reason};
use rows::Row;

// How many entries the sheet's first two bytes name.
fn count(sheet: &[u8]) -> usize
    requires { 2 ≤ length sheet.now }
    ensures { (result ≡ count_in sheet.now) × (result ≤ 65535) }
{
    strings::word(sheet[0], sheet[1])
}

// What the head of an entry says: its number, its offset and its length.
#[derive(Drop)]
struct Head {
    number: u8,
    offset: usize,
    len: usize,
}

// The head of entry i.
fn head_at(sheet: &[u8], i: usize) -> Head
    requires { body_at (i + 1) ≤ length sheet.now }
    ensures { HeadOf sheet.now (body_at i) result }
{
    let at = 2 + 4 * i;
    Head {
        number: sheet[at],
        offset: strings::word(sheet[at + 1], sheet[at + 2]),
        len: usize::from(sheet[at + 3]),
    }
}

// Are header, order, offsets and end right? `at` is where the bytes of entry i begin, `least` the least number that it may have: numbers
// rise strictly, and 255 may repeat: one more saturates.
fn right(sheet: &[u8]) -> bool
    ensures { result ≡ right_sheet sheet.now }
{
    if sheet.len() < 2 {
        return false;
    }
    let count = count(sheet);
    let mut at = 2 + 4 * count;
    if sheet.len() < at {
        return false;
    }
    let mut least = 0;
    for i in 0..count {
        let head = head_at(sheet, i);
        if head.number < least || head.offset != at {
            return false;
        }
        at += head.len;
        least = head.number.saturating_add(1);
    }
    at == sheet.len()
}

// Has every entry of a right sheet a known number and a value of its form, and are 4 and 5 there?
fn good_values(sheet: &[u8], count: usize) -> bool
    requires { RightOf sheet.now count }
    ensures { result ≡ good_values (entries_in sheet.now) }
{
    let mut at = 2 + 4 * count;
    let mut set = false;
    let mut usage = false;
    for i in 0..count {
        let head = head_at(sheet, i);
        let end = at + head.len;
        if !elements::formed(u32::from(head.number), &sheet[at..end]) {
            return false;
        }
        set |= head.number == 4;
        usage |= head.number == 5;
        at = end;
    }
    set && usage
}

// Where each element stands in a right sheet: its numbers rise as those of the table do, so the next entry has the next number, or there is
// no entry with that. Answers where the carried blocks begin.
fn fill_row(sheet: &[u8], count: usize, row: &mut Row) -> usize
    requires { RightOf sheet.now count }
    ensures { (result ≡ carried_at sheet.now) × (row.new ≡ row_in sheet.now) }
{
    let mut at = 2 + 4 * count;
    let mut next = 0;
    for (k, part) in row.iter_mut().enumerate() {
        let mut len = 0;
        if next < count {
            let head = head_at(sheet, next);
            if head.number == rows::number_at(k) {
                len = head.len;
                next += 1;
            }
        }
        *part = Part { at, len };
        at += len;
    }
    at
}

// Judges a sheet: `Sheet` where header, order, offsets or end are wrong; `Value` where a number is unknown, a value bad, or 4 or 5 missing;
// else where each element stands, and the place where the carried blocks begin.
#[tactic(auto, using(crate::proofs::Heads::right_of), unfolding(crate::specs::Scanning::scanning, format::specs::Answers::need, format::specs::Answers::in_order, format::specs::Answers::afterwards))]
pub fn scan(sheet: &[u8], row: &mut Row) -> Result<usize, Reason>
    ensures { Scanned sheet.now row.old result row.new }
{
    if !right(sheet) {
        return Err(Reason::Sheet);
    }
    let count = count(sheet);
    if !good_values(sheet, count) {
        return Err(Reason::Value);
    }
    Ok(fill_row(sheet, count, row))
}
