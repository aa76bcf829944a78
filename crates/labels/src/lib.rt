// The label of a text, its SHA-256: of a text that is there as a whole, or in two parts. One running digest, lent, grows with each part.
#![tactic(auto)]

pub mod lent;

ghost use Rattle.std.specs.Prelude.{◌≡◌, ◌++◌, ◌+◌, ◌^◌, ◌<◌, length};
ghost use Rattle.sha256.specs.Sha256 as Sha256;

use sha256::digest::Digest;

pub fn label(text: &[u8]) -> [u8; 32]
    requires { length text.now < 2 ^ 61 }
    ensures { result ≡ Sha256.label text.now }
{
    lent::absorbed(Digest::new(), text).finish()
}

// "cutting the prelabel elsewhere gives the same label": the parts' label is that of the text that they make end to end.
pub fn of_parts(first: &[u8], second: &[u8]) -> [u8; 32]
    requires { length first.now + length second.now < 2 ^ 61 }
    ensures { result ≡ Sha256.label (first.now ++ second.now) }
{
    lent::absorbed(lent::absorbed(Digest::new(), first), second).finish()
}
