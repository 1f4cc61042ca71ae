// The walker, and the chain of blocks: document 01, "The chain of blocks".
#![tactic(auto)]

ghost use Rattle.std.specs.Prelude.{◌≡◌, ◌&&◌, eqb, get_or};
ghost use Rattle.format.specs.Chain.{id_of};
ghost use Rattle.format.specs.Numbers.{told};
ghost use Rattle.chain.specs.Part.{ThatPart};
ghost use Rattle.chain.specs.Formed.{number_by, damage_by, formed_by};
ghost use Rattle.chain.specs.Survey.{survey_of};

use format::{Damage, Part, Refusal};
use strings::{byte_at, word};

// ---- the walker

// A walker holds the tag and the place of the next block.
#[derive(Drop)]
struct Walker<'a> {
    tag: &'a [u8],
    at: usize,
}

// The work of the walker: the part of the tag that begins at `at`, as many bytes as its first says, as far as the tag has
// them; no bytes at the tag's end.
fn part_at<'a>(tag: &'a [u8], at: usize) -> &'a [u8]
    ensures { ThatPart tag.entry at (get_or tag.now at 0) result }
{
    let Some(says) = tag.get(at) else {
        return &tag[tag.len()..];
    };
    let rest = &tag[at..];
    let size = usize::from(*says).min(rest.len());
    &rest[..size]
}

impl<'a> Walker<'a> {
    // A walker whose next block begins at `at`.
    fn new(tag: &'a [u8], at: usize) -> Self
        ensures { (result.tag ≡ tag.entry) × (result.at ≡ at) }
    {
        Walker { tag, at }
    }

    // The walker's next block, as that very part of the tag.
    fn block(self) -> &'a [u8]
        ensures { ThatPart self.entry.tag self.entry.at (get_or self.entry.tag.now self.entry.at 0) result }
    {
        part_at(self.tag, self.at)
    }
}

// The block that begins at `at`: as many bytes as its first byte says, as far as the tag has them; no bytes at the tag's end.
// It is that very part of the tag.
pub fn block_at<'a>(tag: &'a [u8], at: usize) -> &'a [u8]
    ensures { ThatPart tag.entry at (get_or tag.now at 0) result }
{
    Walker::new(tag, at).block()
}

// ---- the chain

// What a whole chain holds: `library` is block 1, nowhere if there is none (no Option: its bytes are then none, wherever they are asked for);
// `count` is how many other blocks there are, and `size` how many bytes they have together; `end` is the place behind the chain, where the
// 00 stands or the tag ends.
#[derive(Clone, Copy)]
pub struct Chain {
    pub library: Part,
    pub count: usize,
    pub size: usize,
    pub end: usize,
}

// A block's ID, low byte first; a byte that the block lacks counts as 00.
pub fn id_of(block: &[u8]) -> usize
    ensures { result ≡ id_of block.now }
{
    word(byte_at(block, 1), byte_at(block, 2))
}

// The damage of a structured block, 17 to 19, tested in this order. It has n bytes, as it says; `x` is the XOR of those behind the
// first, which is the first where the XOR of the whole block is 00. `seen`: a block 1 came before.
#[tactic(auto, unfolding(crate::specs::Formed::damage_by))]
fn damage_by(n: usize, id: usize, x: u8, seen: bool) -> Option<Damage>
    ensures { number_by result ≡ damage_by n id x (eqb id 1 && seen) }
{
    let short = n < 4;
    let single = id == 1;
    if id == 0 || short {
        Some(Damage::Id)
    } else if usize::from(x) != n {
        Some(Damage::Checksum)
    } else if single && seen {
        Some(Damage::Second)
    } else {
        None
    }
}

// Is the block well formed? `x` as above; it is looked at only where the block is structured.
#[tactic(auto, unfolding(crate::specs::Formed::formed_by, crate::specs::Formed::damage_by))]
pub fn formed_by(block: &[u8], x: u8) -> bool
    ensures { result ≡ formed_by x block.now }
{
    let n = block.len();
    if n < 3 || usize::from(block[0]) != n {
        return false;
    }
    let id = id_of(block);
    let local = 100 < id;
    local || damage_by(n, id, x, false).is_none()
}

// Walks the chain from byte 34, from block to block and over the bytes of each structured block for its XOR, and stops
// altogether at the first damage.
pub fn survey_of(tag: &[u8]) -> Result<Chain, Refusal>
    ensures { told result ≡ survey_of tag.now }
{
    let mut at: usize = 34;
    let mut library = Part { at: 0, len: 0 };
    let mut count: usize = 0;
    let mut size: usize = 0;
    let damage = 'chain: loop {
        let block = block_at(tag, at);
        let n = usize::from(byte_at(tag, at));
        if n == 0 {
            return Ok(Chain {
                library,
                count,
                size,
                end: at,
            });
        }
        let filler = n == 1;
        if filler {
            at += 1;
            continue 'chain;
        }
        let two = n == 2;
        if two {
            break 'chain Damage::Length;
        }
        let id = id_of(block);
        let structured = id <= 100;
        if structured {
            // Each byte is asked for by its place: where the tag ends before the block does, the label leaves both loops.
            let mut x: u8 = 0;
            for k in 1..n {
                let Some(byte) = block.get(k) else {
                    break 'chain Damage::End;
                };
                x ^= *byte;
            }
            if let Some(damage) = damage_by(n, id, x, library.len != 0) {
                break 'chain damage;
            }
        } else if block.len() < n {
            break 'chain Damage::End;
        }
        if id == 1 {
            library = Part { at, len: n };
        } else {
            count += 1;
            size += n;
        }
        at += n;
    };
    Err(Refusal::Placed { damage, place: at })
}
