// What the calls answer: why one refuses, and where bytes stand. What each case means is said in `specs/Numbers.antt`; the refusals' numbers
// are the paper's.
#![tactic(auto)]

ghost use Rattle.std.specs.Prelude.{◌≡◌};
ghost use Rattle.format.specs.Numbers.{reason_number, damage_number, refusal_given, refusal_number};
ghost use Rattle.format.specs.declared.Refusal.TheVariants as code;

// Why a call refuses, by itself: the paper's names and numbers.
#[derive(Clone, Copy, PartialEq, Eq)]
pub enum Reason {
    Size = 1,
    Room = 2,
    Content = 3,
    Check = 4,
    Field = 6,
    Mismatch = 7,
    Sheet = 8,
    Value = 9,
    Clash = 10,
    Large = 11,
    Locked = 12,
    Loose = 13,
    Offset = 14,
    Word = 20,
    Character = 21,
    Parts = 22,
    Bank = 23,
}

// What is wrong with a block of the chain.
#[derive(Clone, Copy, PartialEq, Eq)]
pub enum Damage {
    Length = 15,
    End = 16,
    Id = 17,
    Checksum = 18,
    Second = 19,
}

// A refusal gives its number alone; one for damage its number and the byte where the damaged block begins.
#[derive(Clone, Copy, PartialEq, Eq)]
pub enum Refusal {
    Plain(Reason),
    Placed { damage: Damage, place: usize },
}

// The paper's number of each.
impl From<Reason> for u32 {
    ghost from_gives = { λ reason n. n ≡ reason_number reason };

    fn from(reason: Reason) -> u32 {
        reason as u32
    }
}

impl From<Damage> for u32 {
    ghost from_gives = { λ damage n. n ≡ damage_number damage };

    fn from(damage: Damage) -> u32 {
        damage as u32
    }
}

impl From<Refusal> for u32 {
    ghost from_gives = { λ refusal n. n ≡ refusal_number (refusal_given refusal) };

    fn from(refusal: Refusal) -> u32 {
        match refusal {
            Refusal::Plain(reason) => u32::from(reason),
            Refusal::Placed { damage, place: _ } => u32::from(damage),
        }
    }
}

// A refusal without a place.
impl From<Reason> for Refusal {
    ghost from_gives = { λ reason r. r ≡ code.Plain reason };

    fn from(reason: Reason) -> Refusal {
        Refusal::Plain(reason)
    }
}

// What an edit did: how many pages it changed, and how long the old element was.
#[derive(Clone, Copy)]
pub struct Edited {
    pub pages: usize,
    pub old: usize,
}

// Where some bytes stand in a slice: `len` of them from `at`.
#[derive(Clone, Copy)]
pub struct Part {
    pub at: usize,
    pub len: usize,
}
