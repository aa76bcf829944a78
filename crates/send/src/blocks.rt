// The blocks of a table's tree, from its counts and lengths alone, without hashing.
ghost use Rattle.std.specs.Prelude.{◌≡◌, ◌≤◌, length};
ghost use Rattle.trees.specs.Rules.{max_value, max_children};
ghost use Rattle.send.specs.Blocks.{piece_size, row_blocks, BlocksAsks, BlocksGives};

use arrayvec::ArrayVec;
use sha256::padding;
use tables::areas::HEAD;
use tables::form::{cell, sum};
use tables::limits::Slip;

// The size of the piece that a row leaves waiting. A leaf's label has as many bytes as its row says.
#[tactic(auto, unfolding(crate::specs::Blocks::piece_size))]
fn piece_size(children: usize, bytes: usize) -> u16
    requires { bytes ≤ max_value }
    ensures { result ≡ piece_size children bytes }
{
    if children == 0 {
        return (HEAD + bytes) as u16;
    }
    (HEAD + Slip::LABEL_BYTES) as u16
}

// The blocks of a row whose children's pieces have these sizes; a leaf has none.
#[tactic(auto, using(crate::proofs::Sums::sum_low), unfolding(crate::specs::Blocks::row_blocks))]
fn row_blocks(children: usize, sizes: &[u16]) -> usize
    requires { length sizes.now ≤ max_children }
    ensures { (result ≡ row_blocks children sizes.now) × (result ≤ 32768) }
{
    if children == 0 {
        return 0;
    }
    padding::blocks(sum(sizes))
}

// Each row takes its children's pieces off those that wait and leaves its own.
pub fn blocks(counts: &[u16], lengths: &[u16]) -> usize
    requires { BlocksAsks counts.now lengths.now }
    ensures { BlocksGives counts.now lengths.now result }
{
    let mut waiting: ArrayVec<u16, { Slip::MAX_NODES }> = ArrayVec::new();
    let mut total = 0;
    for i in 0..counts.len() {
        let children = cell(counts, i);
        let bytes = cell(lengths, i);
        let base = waiting.len() - children;
        let own = row_blocks(children, &waiting.as_slice()[base..]);
        total += own;
        waiting.truncate(base);
        waiting.push(piece_size(children, bytes));
    }
    total
}
