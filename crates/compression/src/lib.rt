// One block of SHA-256, FIPS 180-4, section 6.2.2, and the chain of hash values over a text's blocks.
#![tactic(auto)]

mod rounds;
mod schedule;

ghost use Rattle.std.specs.Prelude.{◌≡◌, ◌*◌, ◌≤◌, length};
ghost use Rattle.compression.specs.Compression as Compression;
ghost use Rattle.words.specs.Sha256.{sha256, constants};

// The hash value after one more block.
#[tactic(auto, unfolding(crate::specs::Compression::compress, words::specs::Sha256::constants))]
fn compress(h: &mut [u32; 8], block: &[u8; 64], k: &[u32; 64])
    requires { k.now ≡ constants }
    ensures { h.new ≡ Compression.compress sha256 h.old block.now }
{
    let w = schedule::schedule(block);
    *h = rounds::added(*h, rounds::mixed(*h, k, &w));
}

// The hash value after the first n blocks of a text.
pub fn chain(mut h: [u32; 8], text: &[u8], n: usize) -> [u32; 8]
    requires { 64 * n ≤ length text.now }
    ensures { result ≡ Compression.chain sha256 h n text.now }
{
    let k = words::table();
    let (blocks, _) = text.as_chunks::<64>();
    for block in &blocks[..n] {
        compress(&mut h, block, k);
    }
    h
}
