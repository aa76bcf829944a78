// The running digest: one small record that grows with each part of a text.
ghost use Rattle.std.specs.Prelude.{◌≡◌, [], ◌+◌, ◌^◌, ◌≤◌, ◌<◌, length};
ghost use Rattle.std.proofs.Math.Seq.{paste};
ghost use Rattle.sha256.specs.Running.{Holds, Grows, Ends};

use crate::{octets, padding};

// The hash value after the text's whole blocks, a tail that begins with what is left of it, and its length.
#[derive(Clone, Copy)]
pub struct Digest {
    pub state: [u32; 8],
    pub tail: [u8; 64],
    pub len: usize,
}

// The tail with a part put in at `at`.
fn filled(mut tail: [u8; 64], at: usize, part: &[u8]) -> [u8; 64]
    requires { at + length part.now ≤ 64 }
    ensures { result ≡ paste tail at part.now (length part.now) }
{
    tail[at..at + part.len()].copy_from_slice(part);
    tail
}

impl Digest {
    // The state of FIPS 180-4, section 5.3.3.
    pub fn new() -> Digest
        ensures { Holds result [] }
    {
        Digest {
            state: [
                0x6a09e667, 0xbb67ae85, 0x3c6ef372, 0xa54ff53a, 0x510e527f, 0x9b05688c, 0x1f83d9ab,
                0x5be0cd19,
            ],
            tail: [0; 64],
            len: 0,
        }
    }

    // The digest of the text so far and the part. FIPS 180-4 defines SHA-256 up to 2^61 bytes.
    pub fn absorb(self, part: &[u8]) -> Digest
        requires { self.len + length part.now < 2 ^ 61 }
        ensures { Grows self part.now result }
    {
        let rest = self.len % 64;
        let room = 64 - rest;
        let len = self.len + part.len();
        if part.len() < room {
            let tail = filled(self.tail, rest, part);
            return Digest { tail, len, ..self };
        }
        let (first, after) = part.split_at(room);
        let block = filled(self.tail, rest, first);
        let whole = after.len() / 64;
        let state = compression::chain(self.state, &block, 1);
        let state = compression::chain(state, after, whole);
        let tail = filled(block, 0, &after[64 * whole..]);
        Digest { state, tail, len }
    }

    // The SHA-256 of the text.
    pub fn finish(self) -> [u8; 32]
        requires { self.len < 2 ^ 61 }
        ensures { Ends self result }
    {
        let rest = self.len % 64;
        let n = padding::blocks(rest);
        let bits = self.len as u64 * 8;
        let area = padding::closed(self.tail, rest, 64 * n, bits);
        octets::spread(compression::chain(self.state, &area, n))
    }
}
