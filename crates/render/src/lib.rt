// The sheet of a tag's elements: document 01, "The sheet".
#![tactic(auto)]

ghost use Rattle.std.specs.Prelude.{◌≡◌, [], ◌∷◌, ◌++◌, ◌+◌, ◌*◌, ◌≤◌, length, leb, ltb};
ghost use Rattle.format.specs.Answers.{got, need, in_order};
ghost use Rattle.format.specs.Bytes.{le16, joined};
ghost use Rattle.format.specs.Chain.{id_of};
ghost use Rattle.format.specs.Elements.{places, numbers};
ghost use Rattle.format.specs.Reading.{walked, blocks_in};
ghost use Rattle.format.specs.Numbers.{given};
ghost use Rattle.format.specs.Sheet.{heads, carried_entries, entries};
ghost use Rattle.format.specs.Pieces.{Stored};
ghost use Rattle.rows.specs.Rows.{slots_at, Row as Standing};
ghost use Rattle.render.specs.Rendering.{carried_on, head_of, heads_by, count_by, size_by, Lengths, Renderable, Rendered};

use format::Reason;
use rows::Row;

// Is a block of a whole chain carried? A filler has no ID, the library extension has ID 1.
fn is_carried(block: &[u8]) -> bool
    ensures { result ≡ ltb 1 (id_of block.now) }
{
    1 < chain::id_of(block)
}

// Copies the carried blocks of a tag whose chain is whole, one after the other, to `out` from `at` on; answers the place behind them.
// It walks as `carried_heads` does: one walk for both, and for those of other crates, is the walker's to give.
fn gather(tag: &[u8], out: &mut [u8], at: usize) -> usize
    requires { (walked tag.now ≡ got (blocks_in tag.now)) × (at + length (joined (carried_on tag.now)) ≤ length out.old) }
    ensures { Stored out.old at (joined (carried_on tag.now)) result out.new }
{
    let mut from: usize = 34;
    let mut end = at;
    loop {
        let block = chain::block_at(tag, from);
        if block.len() == 0 {
            return end;
        }
        if is_carried(block) {
            end = strings::put_bytes(out, end, block);
        }
        from += block.len();
    }
}

// The low two bytes of n, the lower first.
#[tactic(auto, unfolding(format::specs::Bytes::le16))]
fn low_two(n: usize) -> [u8; 2]
    ensures { result ≡ le16 n }
{
    let [low, high, ..] = n.to_le_bytes();
    [low, high]
}

// Writes to `sheet` from `at` on the head of the entry with this number: the number, the offset of its bytes (two bytes, low first),
// their length. Answers the place behind the head. Stored byte by byte: a copy of four bytes takes four instructions more for each entry.
fn put_head(sheet: &mut [u8], at: usize, offset: usize, number: u8, len: usize) -> usize
    requires { (len ≤ 255) × (at + 4 ≤ length sheet.old) }
    ensures { Stored sheet.old at (head_of offset number len) result sheet.new }
{
    let [low, high] = low_two(offset);
    sheet[at] = number;
    sheet[at + 1] = low;
    sheet[at + 2] = high;
    sheet[at + 3] = len as u8;
    at + 4
}

// Writes to `sheet` from `at` on the heads of the carried blocks of a tag whose chain is whole; `offset` is where the first of them
// stands in the sheet. Answers the place behind the heads. It walks as `gather` does.
fn carried_heads(tag: &[u8], sheet: &mut [u8], at: usize, offset: usize) -> usize
    requires { (walked tag.now ≡ got (blocks_in tag.now)) × (length tag.now ≤ 2048) × (offset ≤ 65535)
        × (at + length (heads offset (carried_entries (carried_on tag.now))) ≤ length sheet.old) }
    ensures { Stored sheet.old at (heads offset (carried_entries (carried_on tag.now))) result sheet.new }
{
    let mut from: usize = 34;
    let mut end = at;
    let mut next = offset;
    loop {
        let block = chain::block_at(tag, from);
        if block.len() == 0 {
            return end;
        }
        if is_carried(block) {
            end = put_head(sheet, end, next, 255, block.len());
            next += block.len();
        }
        from += block.len();
    }
}

// How many elements have bytes.
fn numbered_count(row: &Row) -> usize
    ensures { (result ≤ places) × (result ≡ count_by row.now) }
{
    row.iter().filter(|element| element.len != 0).count()
}

// How many bytes they have together.
fn numbered_size(row: &Row) -> usize
    requires { size_by row.now ≤ 255 * places }
    ensures { result ≡ size_by row.now }
{
    row.iter().map(|element| element.len).sum()
}

// Writes to `sheet` from `at` on the heads of these elements; `offset` is where their bytes begin in the sheet. Answers the place behind
// the heads.
fn numbered_heads(sheet: &mut [u8], at: usize, offset: usize, row: &Row) -> usize
    requires { (offset ≤ 65535) × Lengths row.now × (at + length (joined (heads_by offset numbers row.now)) ≤ length sheet.old) }
    ensures { Stored sheet.old at (joined (heads_by offset numbers row.now)) result sheet.new }
{
    let mut end = at;
    let mut next = offset;
    for (k, element) in row.iter().enumerate() {
        if element.len != 0 {
            end = put_head(sheet, end, next, rows::number_at(k), element.len);
            next += element.len;
        }
    }
    end
}

// Copies the bytes of these elements to `sheet` from `at` on; answers the place behind them.
fn numbered_bytes<'a>(
    sheet: &mut [u8],
    at: usize,
    tag: &'a [u8],
    made: &'a [u8],
    row: &Row,
) -> usize
    requires { Standing tag.now made.now row.now × (at + length (joined (slots_at (tag.now ++ made.now) row.now)) ≤ length sheet.old) }
    ensures { Stored sheet.old at (joined (slots_at (tag.now ++ made.now) row.now)) result sheet.new }
{
    let mut end = at;
    for element in row {
        if element.len != 0 {
            end = strings::put_bytes(sheet, end, rows::piece(tag, made, *element));
        }
    }
    end
}

// 14 and 2 for a sheet that ends at `end`: no offset passes that, and the lent buffer has `room` bytes.
#[tactic(auto, unfolding(format::specs::Answers::need, format::specs::Answers::in_order))]
fn room_stage(end: usize, room: usize) -> Result<(), Reason>
    ensures { given result ≡ in_order (need 14 (leb end 65535) ∷ need 2 (leb end room) ∷ []) tt }
{
    if 65535 < end {
        return Err(Reason::Offset);
    }
    if room < end {
        return Err(Reason::Room);
    }
    Ok(())
}

// The sheet of the elements of a tag, whose chain is whole and has `count` carried blocks of `size` bytes. Answers Offset where an offset
// would pass 65,535 and Room where `sheet` is too short, and then stores nothing; else the sheet's length, and just that much is filled.
// Where `blocks` is as long as the carried blocks it is they, one behind the other, and one copy does; else the chain is walked for them.
// `count`, `size` and `blocks` are a `View` of crate `look`, which this one does not know.
pub fn render<'a>(
    tag: &'a [u8],
    made: &'a [u8],
    row: &Row,
    count: usize,
    size: usize,
    blocks: &[u8],
    sheet: &mut [u8],
) -> Result<usize, Reason>
    requires { Renderable tag.now made.now row.now count size blocks.now }
    ensures { Rendered
        (entries (record { slots = slots_at (tag.now ++ made.now) row.now; carried = carried_on tag.now }))
        sheet.old result sheet.new }
{
    let n = numbered_count(row) + count;
    let offset = 2 + 4 * n;
    let carried = offset + numbered_size(row);
    let end = carried + size;
    room_stage(end, sheet.len())?;
    let first = strings::put_bytes(sheet, 0, &low_two(n));
    let next = numbered_heads(sheet, first, offset, row);
    let body = carried_heads(tag, sheet, next, carried);
    let behind = numbered_bytes(sheet, body, tag, made, row);
    if blocks.len() == size {
        return Ok(strings::put_bytes(sheet, behind, blocks));
    }
    Ok(gather(tag, sheet, behind))
}
