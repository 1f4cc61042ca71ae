// The identifier of a UHF tag and the elements 1, 3 and 4 that it holds: `specs/` has what it means, `proofs/` the theorems over it. The
// calls are those of `parting` and `joining`.
#![tactic(auto)]

ghost use Rattle.std.specs.Prelude.{◌≡◌};
ghost use Rattle.identifier.specs.Parts.{dotless};
ghost use Rattle.identifier.specs.SetDigits.{width};

// What taking apart found: the length of each element.
#[derive(Clone, Copy)]
pub struct Parted {
    pub item: usize,
    pub isil: usize,
    pub set: usize,
}

// How many digits a total has, and its ordinal.
#[tactic(auto, unfolding(crate::specs::SetDigits::width))]
pub fn width(total: u8) -> usize
    ensures { result ≡ width total }
{
    match total {
        0..=9 => 1,
        10..=99 => 2,
        _ => 3,
    }
}

// Is there no dot? The fold goes on past one: so the compiler looks at many bytes at once.
pub fn is_dotless(s: &[u8]) -> bool
    ensures { result ≡ dotless s.now }
{
    s.iter().fold(true, |none, c| none & (*c != b'.'))
}
