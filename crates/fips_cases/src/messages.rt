// The digests of messages, made in parts over a lent digest.
ghost use Rattle.std.specs.Prelude.{◌≡◌, ◌++◌};
ghost use Rattle.sha256.specs.Sha256 as Sha256;
ghost use Rattle.fips_cases.specs.Values.{Hashes};
ghost use Rattle.fips_cases.specs.Monte.{monte};

use labels::lent;
use sha256::digest::Digest;

// The bytes of a part.
const PART: usize = 1000;

// FIPS 180-4 defines SHA-256 for fewer bytes than this.
const BYTES: usize = 1 << 61;

// The digits of a published message of so many bits: for the empty one two are published.
pub fn shown(bits: Option<usize>, digits: &[u8]) -> &[u8] {
    if bits == Some(0) && digits.len() == 2 {
        return &[];
    }
    digits
}

// Whether so many bits are whole bytes, and so many digits spell them.
pub fn whole(bits: Option<usize>, digits: usize) -> bool {
    bits.is_some_and(|n| n % 8 == 0 && n / 4 == digits)
}

// The digest of the message that the digits spell, part by part.
pub fn hashed(digits: &[u8]) -> Option<[u8; 32]>
    ensures { Hashes digits.now result }
{
    if BYTES <= digits.len() {
        return None;
    }
    let mut bytes = [0; PART];
    let mut d = Digest::new();
    for part in digits.chunks(2 * PART) {
        if !digits::decoded(part, &mut bytes) {
            return None;
        }
        d = lent::absorbed(d, &bytes[..part.len() / 2]);
    }
    Some(d.finish())
}

// How often the Monte Carlo test hashes.
const TURNS: usize = 1000;

// The digest that the Monte Carlo test publishes for a seed.
pub fn turned(seed: [u8; 32]) -> [u8; 32]
    ensures { result ≡ monte seed }
{
    let (mut a, mut b, mut c) = (seed, seed, seed);
    for _ in 0..TURNS {
        let next = joined(a, b, c);
        (a, b, c) = (b, c, next);
    }
    c
}

fn joined(a: [u8; 32], b: [u8; 32], c: [u8; 32]) -> [u8; 32]
    ensures { result ≡ Sha256.label ((a ++ b) ++ c) }
{
    let d = lent::absorbed(Digest::new(), &a);
    lent::absorbed(lent::absorbed(d, &b), &c).finish()
}
