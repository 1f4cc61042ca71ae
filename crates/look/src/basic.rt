// The basic block: size, content parameter and CRC.
ghost use Rattle.std.specs.Prelude.{◌≡◌};
ghost use Rattle.format.specs.Numbers.{given};
ghost use Rattle.look.specs.Looking.{basic_judged};

use format::Reason;

// The refusals 1, 3 and 4.
#[tactic(auto, using(crate::proofs::Steps::size_passed, pages::proofs::Comparing::pointwise_same), unfolding(format::specs::Answers::need, format::specs::Answers::in_order, format::specs::Bytes::le16))]
pub fn basic_stage(tag: &[u8]) -> Result<(), Reason>
    ensures { given result ≡ basic_judged tag.now }
{
    if !pages::good_size(tag.len()) {
        return Err(Reason::Size);
    }
    if tag[0] % 16 != 1 {
        return Err(Reason::Content);
    }
    // in bytes 19 and 20, low byte first
    let checked = tag[19..21] == crc::of_tag(tag).to_le_bytes()[..];
    if !checked {
        return Err(Reason::Check);
    }
    Ok(())
}
