// The fields of the basic block and of block 1, judged together: refusals 6 and 7.
ghost use Rattle.std.specs.Prelude.{◌≡◌, [], ◌∷◌};
ghost use Rattle.format.specs.Answers.{need, in_order};
ghost use Rattle.format.specs.Bytes.{part};
ghost use Rattle.format.specs.Pieces.{Held};
ghost use Rattle.format.specs.Chain.{block_of};
ghost use Rattle.format.specs.Reading.{blocks_in, good_fields, agree};
ghost use Rattle.format.specs.Numbers.{given};
ghost use Rattle.fields.specs.Forms.{item_marked, owner_marked};
ghost use Rattle.look.specs.Looking.{Sized, fields_on, FieldsOf};

use fields::{Item, LibraryParts, Owner};
use format::{Part, Reason};

// What the fields hold.
#[derive(Clone, Copy)]
pub struct Fields {
    pub item: Item,
    pub owner: Owner,
    pub library: LibraryParts,
}

// Block 1, no bytes where there is none.
#[tactic(auto, using(crate::proofs::Standing::held_cut))]
fn library_block(tag: &[u8], block: Part) -> &[u8]
    requires { Held tag.now block (block_of 1 (blocks_in tag.now)) }
    ensures { result.now ≡ block_of 1 (blocks_in tag.now) }
{
    &tag[block.at..block.at + block.len]
}

// Is it the marker?
fn item_marked(item: Item) -> bool
    ensures { result ≡ item_marked item }
{
    matches!(item, Item::Marker)
}

fn owner_marked(owner: Owner) -> bool
    ensures { result ≡ owner_marked owner }
{
    matches!(owner, Owner::Marker)
}

// A tag no shorter than the shortest, no longer than the longest.
#[derive(Clone, Copy)]
pub struct Tag<'a> {
    pub bytes: &'a [u8],
    ghost sized: { Sized bytes.now },
}

impl Tag<'_> {
    // The owner field, bytes 21 to 33, or to 31 where the tag has no more.
    fn owner_field(&self) -> &[u8]
        ensures { result.now ≡ part 21 13 self.now.bytes.now }
    {
        &self.bytes[21..self.bytes.len().min(34)]
    }

    // Refusal 6: is the ordinal above the parts, or does a field break its form? Else what the fields hold.
    #[tactic(auto, unfolding(format::specs::Answers::need, format::specs::Answers::in_order, format::specs::Reading::good_fields, fields::specs::Forms::item_form, fields::specs::Forms::owner_form, fields::specs::Forms::library_form))]
    pub fn find_fields(&self, block: Part) -> Result<Fields, Reason>
        requires { Held self.now.bytes.now block (block_of 1 (blocks_in self.now.bytes.now)) }
        ensures { given result ≡ in_order (need 6 (good_fields self.now.bytes.now) ∷ []) (fields_on self.now.bytes.now) }
    {
        if self.bytes[1] < self.bytes[2] {
            return Err(Reason::Field);
        }
        let item = fields::item_in(&self.bytes[3..19])?;
        let owner = fields::owner_in(self.owner_field())?;
        let library = fields::library_in(library_block(self.bytes, block))?;
        Ok(Fields {
            item,
            owner,
            library,
        })
    }

    // Refusal 7: a marked item is present, an owner in block 1 stands exactly with the marker, a nonzero usage byte agrees with byte 0.
    pub fn agree_stage(&self, found: Fields) -> Result<(), Reason>
        requires { FieldsOf self.now.bytes.now found }
        ensures { given result ≡ need 7 (agree self.now.bytes.now) }
    {
        let library = found.library;
        if item_marked(found.item) && library.item == 0 {
            return Err(Reason::Mismatch);
        }
        if owner_marked(found.owner) != (library.owner != 0) {
            return Err(Reason::Mismatch);
        }
        if library.usage != 0 && library.usage / 16 != self.bytes[0] / 16 {
            return Err(Reason::Mismatch);
        }
        Ok(())
    }
}
