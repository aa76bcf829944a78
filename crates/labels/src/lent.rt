// The running digest lent: to `put`, and by `absorbed`, which serves every other caller.
ghost use Rattle.std.specs.Prelude.{◌+◌, ◌^◌, ◌<◌, length};
ghost use Rattle.sha256.specs.Running.{Grows};

use sha256::digest::Digest;

// The lent digest takes the part: `absorb`, and its answer stored.
pub fn put(d: &mut Digest, part: &[u8])
    requires { d.old.len + length part.now < 2 ^ 61 }
    ensures { Grows d.old part.now d.new }
{
    *d = d.absorb(part);
}

// The digest of the text so far and the part, as `absorb` gives it.
pub fn absorbed(mut d: Digest, part: &[u8]) -> Digest
    requires { d.len + length part.now < 2 ^ 61 }
    ensures { Grows d part.now result }
{
    put(&mut d, part);
    d
}
