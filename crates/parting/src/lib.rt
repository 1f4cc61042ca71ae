// The identifier of a UHF tag taken apart. `Elements` of crate `identifier` says what its parts mean, `Calls` what the call comes to.
#![tactic(auto)]

mod places;
mod set;

ghost use Rattle.std.specs.Prelude.{◌≡◌, ◌&&◌, ◌||◌, not};
ghost use Rattle.format.specs.Answers.{need};
ghost use Rattle.format.specs.Elements.{form};
ghost use Rattle.format.specs.Numbers.{given};
ghost use Rattle.identifier.specs.Elements.{three};
ghost use Rattle.identifier.specs.Calls.{parting, FillsThree};

use format::Reason;
use identifier::Parted;

// 6 where the ISIL, if one leads, or the identifier has not the form of its element.
#[tactic(auto, unfolding(format::specs::Answers::need))]
fn names_stage(leads: bool, isil: &[u8], item: &[u8]) -> Result<(), Reason>
    ensures { given result ≡ need 6 ((not leads || form 3 isil.now) && form 1 item.now) }
{
    let good = (!leads || elements::formed(3, isil)) && elements::formed(1, item);
    if good { Ok(()) } else { Err(Reason::Field) }
}

// The elements 1, 3 and 4 of an identifier: the length of each, and just that much of its buffer filled; or refusal 22, 6, 23 or 2, and nothing
// changed. Without an ISIL element 3 has length 0.
pub fn take_apart(
    text: &[u8],
    leads: bool,
    item: &mut [u8],
    isil: &mut [u8],
    set: &mut [u8],
) -> Result<Parted, Reason>
    ensures { FillsThree (parting leads text.now (three item.old isil.old set.old)) result (three item.new isil.new set.new) }
{
    let cut = places::cut_text(text, leads)?;
    let owner = &text[..cut.isil];
    let name = &text[cut.item..cut.end];
    names_stage(leads, owner, name)?;
    let said = set::set_in(&text[cut.end..])?;
    if item.len() < name.len() || isil.len() < owner.len() || set.len() < 4 {
        return Err(Reason::Room);
    }
    strings::put_bytes(item, 0, name);
    strings::put_bytes(isil, 0, owner);
    set::put_set(set, said);
    Ok(Parted {
        item: name.len(),
        isil: owner.len(),
        set: 4,
    })
}
