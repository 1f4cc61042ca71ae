// Looking at a tag: its refusals 1, 3, 4, 15 to 19, 6 and 7, and what it holds.
#![tactic(auto)]

mod basic;
mod judge;
mod owner;
mod row;

ghost use Rattle.look.specs.View.{Looked};

use format::{Part, Refusal};
use judge::Tag;
use rows::Row;

// The carried blocks of a readable tag: there are `count`, of `size` bytes together; where `blocks` is as long, it is they in one piece, so
// that they need not be gathered (no Option: where they are in no one piece, its bytes are none).
#[derive(Clone, Copy)]
pub struct View {
    pub count: usize,
    pub size: usize,
    pub blocks: Part,
}

// Looks at a tag: the refusals 1, 3, 4, 15 to 19, 6 and 7 in order, or what it holds and where. `made` takes what the tag does not have in
// sheet form: set information, 4 bytes, usage, 1, and an ISIL of the owner field with its hyphen, at most 14.
pub fn look_at(tag: &[u8], row: &mut Row, made: &mut [u8; 19]) -> Result<View, Refusal>
    ensures { Looked tag.now row.old made.old result row.new made.new }
{
    basic::basic_stage(tag)?;
    let survey = match chain::survey_of(tag) {
        Ok(survey) => survey,
        Err(refusal) => return Err(refusal),
    };
    let sized = Tag { bytes: tag };
    let found = match sized.find_fields(survey.library) {
        Ok(found) => found,
        Err(reason) => return Err(Refusal::Plain(reason)),
    };
    sized.agree_stage(found)?;
    row::fill_row(tag, survey.library.at, found, row, made);
    Ok(View {
        count: survey.count,
        size: survey.size,
        blocks: row::one_piece(survey),
    })
}
