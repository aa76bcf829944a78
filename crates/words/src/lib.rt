// The words of SHA-256: FIPS 180-4, the functions of sections 3.2 and 4.1.2 and the constants of 4.2.2.
#![tactic(auto)]

ghost use Rattle.std.specs.Prelude.{◌≡◌, ◌<◌};
ghost use Rattle.words.specs.Words.{ch, maj, number};
ghost use Rattle.words.specs.Sha256.{three, two, constants};

// (4.4) and (4.5): three rotations.
fn three<const A: u32, const B: u32, const C: u32>(x: u32) -> u32
    requires { (0 < A) × (A < 32) × (0 < B) × (B < 32) × (0 < C) × (C < 32) }
    ensures { result ≡ three A B C x }
{
    x.rotate_right(A) ^ x.rotate_right(B) ^ x.rotate_right(C)
}

// (4.6) and (4.7): two rotations and a shift.
fn two<const A: u32, const B: u32, const C: u32>(x: u32) -> u32
    requires { (0 < A) × (A < 32) × (0 < B) × (B < 32) × (C < 32) }
    ensures { result ≡ two A B C x }
{
    x.rotate_right(A) ^ x.rotate_right(B) ^ (x >> C)
}

pub fn sum0(x: u32) -> u32
    ensures { result ≡ three 2 13 22 x }
{
    three::<2, 13, 22>(x)
}

pub fn sum1(x: u32) -> u32
    ensures { result ≡ three 6 11 25 x }
{
    three::<6, 11, 25>(x)
}

pub fn sigma0(x: u32) -> u32
    ensures { result ≡ two 7 18 3 x }
{
    two::<7, 18, 3>(x)
}

pub fn sigma1(x: u32) -> u32
    ensures { result ≡ two 17 19 10 x }
{
    two::<17, 19, 10>(x)
}

pub fn choice(x: u32, y: u32, z: u32) -> u32
    ensures { result ≡ ch 32 x y z }
{
    (x & y) ^ (!x & z)
}

pub fn majority(x: u32, y: u32, z: u32) -> u32
    ensures { result ≡ maj x y z }
{
    (x & y) ^ (x & z) ^ (y & z)
}

// The big-endian word of four bytes.
#[tactic(auto, using(crate::proofs::Functions::word_is))]
pub fn word(bytes: [u8; 4]) -> u32
    ensures { result ≡ number 0 bytes }
{
    u32::from_be_bytes(bytes)
}

// Section 4.2.2. A static, which is read where it stands.
static K: [u32; 64] = [
    0x428a2f98, 0x71374491, 0xb5c0fbcf, 0xe9b5dba5, 0x3956c25b, 0x59f111f1, 0x923f82a4, 0xab1c5ed5,
    0xd807aa98, 0x12835b01, 0x243185be, 0x550c7dc3, 0x72be5d74, 0x80deb1fe, 0x9bdc06a7, 0xc19bf174,
    0xe49b69c1, 0xefbe4786, 0x0fc19dc6, 0x240ca1cc, 0x2de92c6f, 0x4a7484aa, 0x5cb0a9dc, 0x76f988da,
    0x983e5152, 0xa831c66d, 0xb00327c8, 0xbf597fc7, 0xc6e00bf3, 0xd5a79147, 0x06ca6351, 0x14292967,
    0x27b70a85, 0x2e1b2138, 0x4d2c6dfc, 0x53380d13, 0x650a7354, 0x766a0abb, 0x81c2c92e, 0x92722c85,
    0xa2bfe8a1, 0xa81a664b, 0xc24b8b70, 0xc76c51a3, 0xd192e819, 0xd6990624, 0xf40e3585, 0x106aa070,
    0x19a4c116, 0x1e376c08, 0x2748774c, 0x34b0bcb5, 0x391c0cb3, 0x4ed8aa4a, 0x5b9cca4f, 0x682e6ff3,
    0x748f82ee, 0x78a5636f, 0x84c87814, 0x8cc70208, 0x90befffa, 0xa4506ceb, 0xbef9a3f7, 0xc67178f2,
];

// The constants, lent once for all blocks of a text.
#[tactic(auto, unfolding(crate::specs::Sha256::constants))]
pub fn table() -> &'static [u32; 64]
    ensures { result.now ≡ constants }
{
    &K
}
