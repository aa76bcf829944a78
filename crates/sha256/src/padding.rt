// The padding of FIPS 180-4, section 5.1.
ghost use Rattle.std.specs.Prelude.{◌≡◌, ◌+◌, ◌-◌, ◌/◌, ◌^◌, ◌≤◌, ◌<◌, take};
ghost use Rattle.words.specs.Sha256.{sha256};
ghost use Rattle.sha256.specs.Padding.{closing};

// The blocks that a text of n bytes takes.
pub fn blocks(n: usize) -> usize
    requires { n < 2 ^ 61 }
    ensures { result ≡ (n + 72) / 64 }
{
    (n + 72) / 64
}

// What is left of the text, padded to one block or two: the length field ends at `end`.
pub(crate) fn closed(tail: [u8; 64], rest: usize, end: usize, bits: u64) -> [u8; 128]
    requires { (rest < 64) × (rest + 9 ≤ end) × (end ≤ 128) }
    ensures { take end result ≡ closing sha256 (take rest tail) (end - rest - 9) bits }
{
    let mut area = [0u8; 128];
    area[..rest].copy_from_slice(&tail[..rest]);
    area[rest] = 0x80;
    area[end - 8..end].copy_from_slice(&bits.to_be_bytes());
    area
}
