// The rounds of a block: FIPS 180-4, section 6.2.2, steps 2 to 4.
ghost use Rattle.std.specs.Prelude.{◌≡◌, ◌<◌, slice_index};
ghost use Rattle.compression.specs.Compression as Compression;
ghost use Rattle.words.specs.Sha256.{sha256, constants};

use std::array;

// The round t, from T1 and T2: the working variables then move up.
#[tactic(auto, unfolding(crate::specs::Compression::round))]
fn round(v: &mut [u32; 8], k: &[u32; 64], w: &[u32; 64], t: usize)
    requires { t < 64 }
    ensures { v.new ≡ Compression.round sha256 v.old (slice_index k.now t) (slice_index w.now t) }
{
    let [a, b, c, d, e, f, g, h] = *v;
    let t1 = h
        .wrapping_add(words::sum1(e))
        .wrapping_add(words::choice(e, f, g))
        .wrapping_add(k[t])
        .wrapping_add(w[t]);
    let t2 = words::sum0(a).wrapping_add(words::majority(a, b, c));
    *v = [t1.wrapping_add(t2), a, b, c, d.wrapping_add(t1), e, f, g];
}

// All 64 rounds, eight a turn, since one by one takes a fourth more time: the working variables then change places by their names and not by moves.
pub(crate) fn mixed(mut v: [u32; 8], k: &[u32; 64], w: &[u32; 64]) -> [u32; 8]
    requires { k.now ≡ constants }
    ensures { result ≡ Compression.rounds sha256 64 v w.now }
{
    for turn in 0..8 {
        let t = 8 * turn;
        round(&mut v, k, w, t);
        round(&mut v, k, w, t + 1);
        round(&mut v, k, w, t + 2);
        round(&mut v, k, w, t + 3);
        round(&mut v, k, w, t + 4);
        round(&mut v, k, w, t + 5);
        round(&mut v, k, w, t + 6);
        round(&mut v, k, w, t + 7);
    }
    v
}

// Step 4: each word of v added to that of h.
pub(crate) fn added(h: [u32; 8], v: [u32; 8]) -> [u32; 8]
    ensures { result ≡ Compression.added sha256 8 h v }
{
    array::from_fn(|i| v[i].wrapping_add(h[i]))
}
