// The tests that come before the first entry.
ghost use Rattle.std.specs.Prelude.{◌≡◌};
ghost use Rattle.slips.specs.Check.{header_of, header_seen};

use bits::read;
use outcomes::numbers::Refusal;
use tables::limits::Slip;

// The node count of a header that is not refused.
pub fn header_of(s: &[u8]) -> Result<usize, Refusal>
    ensures { header_seen result ≡ header_of s.now }
{
    if Slip::MAX_BYTES < s.len() {
        return Err(Refusal::TooLong);
    }
    if 8 * s.len() < Slip::EDITION_BITS + Slip::COUNT_BITS {
        return Err(Refusal::CutShort);
    }
    if read::bits(s, 0, Slip::EDITION_BITS) != Slip::EDITION {
        return Err(Refusal::OtherEdition);
    }
    let count = read::bits(s, Slip::EDITION_BITS, Slip::COUNT_BITS);
    if count == 0 {
        return Err(Refusal::NoNodes);
    }
    Ok(count)
}
