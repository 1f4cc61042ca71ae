// Small functions on strings of bytes that several crates call.
#![tactic(auto)]

ghost use Rattle.std.specs.Prelude.{◌≡◌, ◌+◌, ◌≤◌, ◌++◌, length, get_or, take, drop, replicate};
ghost use Rattle.format.specs.Bytes.{between, word, xor_all};
ghost use Rattle.format.specs.Pieces.{Stored};

// The number in two bytes, low byte first.
pub fn word(low: u8, high: u8) -> usize
    ensures { (result ≡ word low high) × (result ≤ 65535) }
{
    usize::from(u16::from_le_bytes([low, high]))
}

// Is b one of the bytes from low to high?
pub fn within(low: u8, high: u8, b: u8) -> bool
    ensures { result ≡ between low high b }
{
    (low..=high).contains(&b)
}

// The byte of s at a place; a missing one is 00.
pub fn byte_at(s: &[u8], at: usize) -> u8
    ensures { result ≡ get_or s.now at 0 }
{
    s.get(at).copied().unwrap_or(0)
}

// The XOR of the bytes.
pub fn xor_of(bytes: &[u8]) -> u8
    ensures { result ≡ xor_all bytes.now }
{
    bytes.iter().fold(0, |x, b| x ^ *b)
}

// Copies `source` to the front of `target`, and leaves the rest as it is; answers how many bytes it copied.
pub fn copy(source: &[u8], target: &mut [u8]) -> usize
    requires { length source.now ≤ length target.old }
    ensures { (result ≡ length source.now) × (target.new ≡ take (length source.now) source.now ++ drop (length source.now) target.old) }
{
    let count = source.len();
    target[0..count].copy_from_slice(source);
    count
}

// Copies `piece` to `out` from `at` on; answers the place behind it.
pub fn put_bytes(out: &mut [u8], at: usize, piece: &[u8]) -> usize
    requires { at + length piece.now ≤ length out.old }
    ensures { Stored out.old at piece.now result out.new }
{
    let end = at + piece.len();
    copy(piece, &mut out[at..end]);
    end
}

// Makes every byte 00.
pub fn clear(out: &mut [u8])
    ensures { out.new ≡ replicate (length out.old) 0 }
{
    out.fill(0);
}
