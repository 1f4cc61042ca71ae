// Reading a tag into a sheet.
#![tactic(auto)]

ghost use Rattle.format.specs.Numbers.{Reads};

use format::{Part, Refusal};
use rows::PLACES;

// Reads a tag into the lent sheet buffer: the sheet's length, and just that much filled; or the refusal, and nothing changed.
pub fn read(tag: &[u8], sheet: &mut [u8]) -> Result<usize, Refusal>
    ensures { Reads tag.now sheet.old result sheet.new }
{
    let mut row = [Part { at: 0, len: 0 }; PLACES];
    let mut made = [0; 19];
    let view = look::look_at(tag, &mut row, &mut made)?;
    let blocks = &tag[view.blocks.at..view.blocks.at + view.blocks.len];
    match render::render(tag, &made, &row, view.count, view.size, blocks, sheet) {
        Ok(length) => Ok(length),
        Err(reason) => Err(Refusal::Plain(reason)),
    }
}
