// Fields and runs of bytes, read from any bit of a slice.
ghost use Rattle.std.specs.Prelude.{◌≡◌, ◌+◌, ◌*◌, ◌≤◌, ◌<◌, length, drop, get_or};
ghost use Rattle.bits.specs.Bits.{bits_of, octets};
ghost use Rattle.bits.specs.Reads.{FieldGives};

// The byte at i, and 0 past the end. As in utf8, for another type: one for both would be no plainer.
fn byte(s: &[u8], i: usize) -> usize
    ensures { (result ≡ get_or s.now i 0) × (result < 256) }
{
    s.get(i).copied().map_or(0, usize::from)
}

// The field of n bits that begins at bit `at`: three bytes hold it, wherever in a byte it begins.
pub fn bits(s: &[u8], at: usize, n: usize) -> usize
    requires { (n ≤ 16) × (at + n ≤ 8 * length s.now) }
    ensures { FieldGives s.now at n result }
{
    let i = at / 8;
    let first = byte(s, i);
    let second = byte(s, i + 1);
    let third = byte(s, i + 2);
    let window = first * 65536 + second * 256 + third;
    let below = 24 - at % 8 - n;
    (window >> below) % (1 << n)
}

// The whole bytes that begin at bit `at`, as many as dst holds.
pub fn copy(s: &[u8], at: usize, dst: &mut [u8])
    requires { at + 8 * length dst.old ≤ 8 * length s.now }
    ensures { dst.new ≡ octets (length dst.old) (drop at (bits_of s.now)) }
{
    let i = at / 8;
    let off = at % 8;
    let end = i + dst.len();
    if off == 0 {
        dst.copy_from_slice(&s[i..end]);
    } else {
        shift_out(s, i, off, dst);
    }
}

// The same, where no byte of s is a byte of dst: each takes part of two.
fn shift_out(s: &[u8], i: usize, off: usize, dst: &mut [u8])
    requires { (off < 8) × (i + length dst.old < length s.now) }
    ensures { dst.new ≡ octets (length dst.old) (drop (8 * i + off) (bits_of s.now)) }
{
    let below = 8 - off;
    for (j, d) in dst.iter_mut().enumerate() {
        let first = byte(s, i + j);
        let second = byte(s, i + j + 1);
        *d = (((first * 256 + second) >> below) % 256) as u8;
    }
}
