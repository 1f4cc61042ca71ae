// Blocks that hold elements: their content is fields with a 00 between them.
ghost use Rattle.std.specs.Prelude.{◌≡◌, List, ◌∷◌, ℕ, ◌+◌, ◌≤◌, length};
ghost use Rattle.format.specs.Pieces.{Stored};
ghost use Rattle.format.specs.Chain.{sealed};
ghost use Rattle.image.specs.Laying.{fields_size, content, Few, FieldsFit, BlockFits};

use format::Part;
use strings::put_bytes;

// How many bytes fields of these lengths have: the last that is there ends them.
pub fn fields_size(fields: &[Part]) -> usize
    requires { Few fields.now }
    ensures { (result ≡ fields_size fields.now) × (result ≤ 1024) }
{
    let mut size: usize = 0;
    for field in fields.iter().rev() {
        size += field.len + usize::from(size != 0);
    }
    size
}

// Lays fields down from byte `at` on. They stand in the source or in what was made.
fn put_fields<'a>(src: &'a [u8], made: &'a [u8], fields: &[Part], draft: &mut [u8], at: usize)
    requires { FieldsFit src.now made.now fields.now at draft.old }
    ensures { Stored draft.old at (content src.now made.now fields.now) (at + length (content src.now made.now fields.now)) draft.new }
{
    let mut to = at;
    for field in fields {
        let len = field.len;
        if len != 0 {
            put_bytes(draft, to, rows::piece(src, made, *field));
        }
        to += len + 1;
    }
}

// Seals a block whose content p stands behind four 00: its length, its ID and its checksum.
fn seal_block(block: &mut [u8], id: u8)
    requires { (id ≤ 100) × (4 ≤ length block.old) × (length block.old ≤ 255) }
    ensures { (p : List ℕ) → block.old ≡ 0 ∷ 0 ∷ 0 ∷ 0 ∷ p → block.new ≡ sealed id p }
{
    block[0] = block.len() as u8;
    block[1] = id;
    block[3] = strings::xor_of(block);
}

// Makes block 1 of 00: the media byte, and the fields behind it.
pub fn put_library<'a>(src: &'a [u8], made: &'a [u8], fields: &[Part], block: &mut [u8], media: u8)
    requires { BlockFits src.now made.now fields.now block.old }
    ensures { block.new ≡ sealed 1 (media ∷ content src.now made.now fields.now) }
{
    block[4] = media;
    put_fields(src, made, fields, block, 5);
    seal_block(block, 1);
}
