// The schedule of a block: FIPS 180-4, section 6.2.2, step 1.
ghost use Rattle.std.specs.Prelude.{◌≡◌, ◌<◌, ◌≤◌, take, slice_set};
ghost use Rattle.words.specs.Words as Words;
ghost use Rattle.compression.specs.Compression.{following, scheduled};
ghost use Rattle.words.specs.Sha256.{sha256};

// The block's 16 words, with room for 48 more.
fn loaded(block: &[u8; 64]) -> [u32; 64]
    ensures { take 16 result ≡ Words.words 4 16 block.now }
{
    let (fours, _) = block.as_chunks::<4>();
    let mut w = [0u32; 64];
    for (t, four) in fours.iter().enumerate() {
        w[t] = words::word(*four);
    }
    w
}

// Lays down the word at t of the schedule, from those before it.
fn lay(w: &mut [u32; 64], t: usize)
    requires { (16 ≤ t) × (t < 64) }
    ensures { w.new ≡ slice_set w.old t (following sha256 w.old t) }
{
    w[t] = words::sigma1(w[t - 2])
        .wrapping_add(w[t - 7])
        .wrapping_add(words::sigma0(w[t - 15]))
        .wrapping_add(w[t - 16]);
}

// All 64 words, eight a turn, since one by one takes longer: a word is then still in a register where the next ones read it.
pub(crate) fn schedule(block: &[u8; 64]) -> [u32; 64]
    ensures { result ≡ scheduled sha256 block.now }
{
    let mut w = loaded(block);
    for turn in 2..8 {
        let t = 8 * turn;
        lay(&mut w, t);
        lay(&mut w, t + 1);
        lay(&mut w, t + 2);
        lay(&mut w, t + 3);
        lay(&mut w, t + 4);
        lay(&mut w, t + 5);
        lay(&mut w, t + 6);
        lay(&mut w, t + 7);
    }
    w
}
