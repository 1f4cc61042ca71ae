// Writing a sheet onto a tag.
#![tactic(auto)]

ghost use Rattle.std.specs.Prelude.{◌≤◌, length};
ghost use Rattle.format.specs.Numbers.{Writes};
ghost use Rattle.image.specs.Drafting.{Fresh};
ghost use Rattle.pages.specs.Storing.{Sized};

use format::{Part, Reason};
use rows::PLACES;

// Writes a sheet onto a tag: the count of pages changed, and the tag is the writer's own layout of the sheet's elements; or the refusal,
// and nothing changed. What the tag held is not judged.
pub fn write(sheet: &[u8], tag: &mut [u8], locks: &[u8]) -> Result<usize, Reason>
    ensures { Writes sheet.now tag.old locks.now result tag.new }
{
    pages::size_stage(tag.len(), locks)?;
    // a short tag has a short draft: clearing a long one would cost more than all else
    if tag.len() <= 256 {
        write_by::<256>(sheet, tag, locks)
    } else {
        write_by::<2048>(sheet, tag, locks)
    }
}

// Writes by way of a draft of N bytes, of which it takes as many as the tag has.
fn write_by<const N: usize>(sheet: &[u8], tag: &mut [u8], locks: &[u8]) -> Result<usize, Reason>
    requires { Sized tag.old locks.now × (length tag.old ≤ N) × (N ≤ 2048) }
    ensures { Writes sheet.now tag.old locks.now result tag.new }
{
    let mut draft = [0u8; N];
    let n = tag.len();
    write_on(&mut draft[..n], sheet, tag, locks)
}

// Writes by way of a draft of 00, as long as the tag. What it requires is of two slices, one of them lent to be changed: so no struct has it.
fn write_on(draft: &mut [u8], sheet: &[u8], tag: &mut [u8], locks: &[u8]) -> Result<usize, Reason>
    requires { Fresh draft.old tag.old × Sized tag.old locks.now }
    ensures { Writes sheet.now tag.old locks.now result tag.new }
{
    let mut row = [Part { at: 0, len: 0 }; PLACES];
    let carried = sheet::scan(sheet, &mut row)?;
    image::draft(sheet, &[], &row, &sheet[carried..], draft)?;
    image::seal(draft);
    pages::lock_stage(draft, tag, locks)?;
    Ok(pages::store(draft, tag))
}
