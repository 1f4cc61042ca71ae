// Set information in digits.
ghost use Rattle.std.specs.Prelude.{◌≡◌, true, ◌≤◌, length};
ghost use Rattle.format.specs.Bytes.{all};
ghost use Rattle.format.specs.Elements.{set_bytes};
ghost use Rattle.format.specs.Numbers.{given};
ghost use Rattle.format.specs.Pieces.{Stored};
ghost use Rattle.identifier.specs.SetDigits.{digit, number_in};
ghost use Rattle.parting.specs.Places.{place_in};
ghost use Rattle.parting.specs.Sets.{read_in, stands_in};

use format::Reason;

// Set information: how many parts, and which of them.
#[derive(Clone, Copy)]
pub struct Set {
    pub total: u8,
    pub ordinal: u8,
}

// Is each byte of s a digit?
fn are_digits(s: &[u8]) -> bool
    ensures { result ≡ all digit s.now }
{
    s.iter().all(|c| strings::within(b'0', b'9', *c))
}

// The number that up to three digits say.
fn number_in(s: &[u8]) -> usize
    requires { (all digit s.now ≡ true) × (length s.now ≤ 3) }
    ensures { result ≡ number_in s.now }
{
    let mut n: usize = 0;
    for c in s {
        n = 10 * n + usize::from(*c - b'0');
    }
    n
}

// What a part says in digits: total, then ordinal.
fn read_set(part: &[u8]) -> Result<Set, Reason>
    ensures { given result ≡ read_in part.now }
{
    if 6 < part.len() || !are_digits(part) {
        return Err(Reason::Field);
    }
    let half = part.len() / 2;
    let total = number_in(&part[..half]);
    let ordinal = number_in(&part[half..]);
    let empty = total < 1;
    let large = 255 < total;
    let above = total < ordinal;
    if empty || large || above || part.len() != 2 * identifier::width(total as u8) {
        return Err(Reason::Field);
    }
    Ok(Set {
        total: total as u8,
        ordinal: ordinal as u8,
    })
}

// What stands in the set's place, from what stands behind the identifier: a dot and the part, or nothing, which is 0 and 0.
#[tactic(auto, unfolding(crate::specs::Sets::stands_in, crate::specs::Sets::numbers_in, crate::specs::Places::place_in, identifier::specs::Elements::good_set, identifier::specs::Elements::pointing, format::specs::Bytes::same, format::specs::Answers::in_order, format::specs::Answers::need))]
pub fn set_in(behind: &[u8]) -> Result<Set, Reason>
    ensures { given result ≡ stands_in (place_in behind.now) }
{
    let [_, part @ ..] = behind else {
        return Ok(Set {
            total: 0,
            ordinal: 0,
        });
    };
    match part {
        [b'S'] => Err(Reason::Bank),
        _ => read_set(part),
    }
}

// Stores element 4: each number in two bytes, low byte first.
#[tactic(auto, unfolding(format::specs::Elements::set_bytes, format::specs::Bytes::le16))]
pub fn put_set(set: &mut [u8], said: Set)
    requires { 4 ≤ length set.old }
    ensures { Stored set.old 0 (set_bytes said.total said.ordinal) 4 set.new }
{
    strings::put_bytes(set, 0, &[said.total, 0, said.ordinal, 0]);
}
