// The CRC of a tag's basic block, bit by bit. The register stands in the upper half of 32 bits: what goes out of it is gone, and nothing has to be cut back.
#![tactic(auto)]

ghost use Rattle.std.specs.Prelude.{◌≡◌};
ghost use Rattle.crc.specs.Register.{Becomes};
ghost use Rattle.format.specs.Crc.{crc_bit, crc_byte, crc_from, crc, covered};

// The register at the start, and the polynomial, in the upper half.
const START: u32 = 0xFFFF_0000;

const POLYNOMIAL: u32 = 0x1021_0000;

// The register one bit on: the polynomial comes in where a bit goes out.
fn bit(register: u32) -> u32
    ensures { Becomes register crc_bit result }
{
    (register << 1) ^ ((register >> 31) * POLYNOMIAL)
}

// The register after one more byte, which meets its high end. Of a loop over the eight bits the compiler would make a table.
fn step(register: u32, byte: u8) -> u32
    ensures { Becomes register (λ x. crc_byte x byte) result }
{
    let met = register ^ (u32::from(byte) << 24);
    bit(bit(bit(bit(bit(bit(bit(bit(met))))))))
}

// The register after these bytes.
fn run(register: u32, bytes: &[u8]) -> u32
    ensures { Becomes register (λ x. crc_from x bytes.now) result }
{
    bytes
        .iter()
        .fold(register, |after, byte| step(after, *byte))
}

// The CRC of a tag's basic block: of bytes 0 to 18 and then 21 to 33, of which those that the tag lacks count as 00.
pub fn of_tag(tag: &[u8]) -> u16
    ensures { result ≡ crc (covered tag.now) }
{
    let n = tag.len();
    let mut owner = [0u8; 13];
    strings::copy(&tag[n.min(21)..n.min(34)], &mut owner);
    let front = run(START, &tag[..n.min(19)]);
    (run(front, &owner) >> 16) as u16
}
