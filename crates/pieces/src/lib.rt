// The piece of a node in its parent's prelabel: "type in two bytes, label length in two bytes, most significant first, then the label".
#![tactic(auto)]

ghost use Rattle.std.specs.Prelude.{◌≡◌, ◌++◌, ◌+◌, ◌^◌, ◌≤◌, ◌<◌, length, take};
ghost use Rattle.trees.specs.Nodes.{head_bytes, piece};

use tables::areas::HEAD;

// Writes a piece behind the first `at` bytes, and answers where it ends.
pub fn put(kind: usize, text: &[u8], at: usize, work: &mut [u8]) -> usize
    requires { (kind < 2 ^ 16) × (length text.now < 2 ^ 16) × (at + head_bytes + length text.now ≤ length work.old) }
    ensures { (result ≡ at + head_bytes + length text.now) × (take (at + head_bytes + length text.now) work.new ≡ take at work.old ++ piece (record { kind = kind; text = text.now })) }
{
    let size = text.len();
    let from = at + HEAD;
    work[at..at + 2].copy_from_slice(&(kind as u16).to_be_bytes());
    work[at + 2..from].copy_from_slice(&(size as u16).to_be_bytes());
    work[from..from + size].copy_from_slice(text);
    from + size
}
