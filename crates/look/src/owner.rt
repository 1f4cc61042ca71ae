// Where the owner of a readable tag stands: in block 1 if that has one, `at` its place there; else as the owner field says.
ghost use Rattle.std.specs.Prelude.{◌≡◌};
ghost use Rattle.look.specs.Row.{stead, isil_made, isil_bytes, isil_by, alternative_owner_by, IsilLies, FieldLies, OwnerLies};

use crate::judge::Fields;
use crate::row::NOWHERE;
use fields::Owner;
use format::Part;

// An ISIL of the owner field as a sheet has it, laid down in `made` behind set information and usage: its prefix of one or two letters, a
// hyphen, and its unit.
fn hyphened(tag: &[u8], prefix: usize, unit: usize, made: &mut [u8; 19])
    requires { IsilLies tag.now prefix unit }
    ensures { made.new ≡ stead 5 (isil_made tag.now prefix unit) made.old }
{
    let behind = strings::put_bytes(made, 5, &tag[21..21 + prefix]);
    made[behind] = b'-';
    strings::put_bytes(made, behind + 1, &tag[23..23 + unit]);
}

// The ISIL that is made: that of the owner field, where block 1 has no owner.
pub fn make_isil(tag: &[u8], found: Fields, made: &mut [u8; 19])
    requires { FieldLies tag.now found.owner }
    ensures { made.new ≡ stead 5 (isil_bytes tag.now found.owner found.library) made.old }
{
    match found.owner {
        Owner::Isil { prefix, unit } if found.library.owner == 0 => hyphened(
            tag, prefix, unit, made,
        ),
        _ => (),
    }
}

// Elements 3 and 23, an ISIL and an alternative owner, which begins 02 or 03.
pub fn owner_parts(tag: &[u8], at: usize, found: Fields) -> (Part, Part)
    requires { OwnerLies tag.now at found.owner found.library }
    ensures { (result.0 ≡ isil_by tag.now at found.owner found.library) × (result.1 ≡ alternative_owner_by tag.now at found.owner found.library) }
{
    let len = found.library.owner;
    if len != 0 {
        let owner = Part { at, len };
        return if matches!(tag[at], 2 | 3) {
            (NOWHERE, owner)
        } else {
            (owner, NOWHERE)
        };
    }
    match found.owner {
        Owner::Isil { prefix, unit } => {
            let isil = Part {
                at: tag.len() + 5,
                len: prefix + 1 + unit,
            };
            (isil, Part { at: 23, len: 0 })
        }
        Owner::Alternative(len) => (NOWHERE, Part { at: 23, len }),
        Owner::Nothing | Owner::Marker => (NOWHERE, Part { at: 23, len: 0 }),
    }
}
