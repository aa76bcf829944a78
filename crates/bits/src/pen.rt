// A pen: fields and runs of bytes written one after the other, "the most significant bit first".
ghost use Rattle.std.specs.Prelude.{◌≡◌, ◌+◌, ◌*◌, ◌≤◌, ◌<◌, ◌^◌, length};
ghost use Rattle.bits.specs.Bits.{bits_in, bits_of};
ghost use Rattle.bits.specs.Ink.{PenReady, PutAsks, PutGives, ShiftGives, FinishGives};
ghost use Rattle.bits.specs.InkLaws.{start};

// The bytes before `at` are written; the last `held` bits, which fill no byte yet, are the number `acc`.
#[derive(Drop)]
pub struct Pen {
    pub acc: usize,
    pub held: usize,
    pub at: usize,
}

impl Pen {
    // A pen that has written nothing.
    pub fn new() -> Pen
        ensures { result ≡ start }
    {
        Pen {
            acc: 0,
            held: 0,
            at: 0,
        }
    }

    // A field of n bits.
    pub fn put(&mut self, v: usize, n: usize, out: &mut [u8])
        requires { PutAsks self.old n out.old × (n ≤ 16) × (v < 2 ^ n) }
        ensures { PutGives self.old out.old (bits_in n v) self.new out.new }
    {
        let word = (self.acc << n) + v;
        let mut held = self.held + n;
        let mut at = self.at;
        // A turn takes eight bits of a word: no iterator fits.
        while 8 <= held {
            held -= 8;
            out[at] = ((word >> held) % 256) as u8;
            at += 1;
        }
        *self = Pen {
            acc: word % (1 << held),
            held,
            at,
        };
    }

    // A run of whole bytes.
    pub fn put_bytes(&mut self, src: &[u8], out: &mut [u8])
        requires { PutAsks self.old (8 * length src.now) out.old }
        ensures { PutGives self.old out.old (bits_of src.now) self.new out.new }
    {
        let end = self.at + src.len();
        let dst = &mut out[self.at..end];
        if self.held == 0 {
            dst.copy_from_slice(src);
        } else {
            self.acc = shift_in(self.acc, self.held, src, dst);
        }
        self.at = end;
    }

    // "0 to 7 zero bits to the byte's end": the number of bytes written.
    pub fn finish(mut self, out: &mut [u8]) -> usize
        requires { PenReady self out.old × (8 * self.at + self.held ≤ 8 * length out.old) }
        ensures { FinishGives self out.old result out.new }
    {
        let gap = (8 - self.held) % 8;
        self.put(0, gap, out);
        self.at
    }
}

// The bytes of src behind `held` bits fill dst; the last bits of src are then held.
fn shift_in(acc: usize, held: usize, src: &[u8], dst: &mut [u8]) -> usize
    requires { (held < 8) × (acc < 2 ^ held) × (length dst.old ≡ length src.now) }
    ensures { ShiftGives acc held src.now result dst.new }
{
    let mut rest = acc;
    for (j, x) in src.iter().enumerate() {
        let word = rest * 256 + usize::from(*x);
        dst[j] = ((word >> held) % 256) as u8;
        rest = word % (1 << held);
    }
    rest
}
