// Where the rows of a tree stand when it is drawn. The rows are in post order, so a subtree is a run of rows that
// ends with its root.
ghost use Rattle.std.specs.Prelude.{◌≤◌, ◌<◌, length};
ghost use Rattle.trees.specs.Rules.{max_nodes};

use tables::limits::Slip;

// The first row of the subtree that ends with a row: each row passed was waited for, and its children are then.
fn first(counts: &[u16], row: usize) -> usize
    requires { row < max_nodes }
    ensures { result ≤ row }
{
    let mut waiting = 1;
    for at in (0..row + 1).rev() {
        waiting = waiting - 1 + parts::cell(counts, at);
        if waiting == 0 {
            return at;
        }
    }
    0
}

// How many nodes are above a row. Behind it the subtrees that wait for a parent are counted, its own and those that
// came since: the first row with as many children or more is the node above, which then waits alone.
pub fn depth(counts: &[u16], row: usize) -> usize
    requires { row < 65536 }
    ensures { result ≤ length counts.now }
{
    let mut above = 0;
    let mut waiting = 1;
    for i in row + 1..counts.len() {
        let children = usize::from(counts[i]);
        if children < waiting {
            waiting = waiting - children + 1;
            continue;
        }
        above += 1;
        waiting = 1;
    }
    above
}

// The rows in the order of their lines: before a row's line stand those of the nodes above it and of the rows before
// its subtree's first.
pub fn order(counts: &[u16], rows: &mut [u16; Slip::MAX_NODES])
    requires { length counts.now ≤ max_nodes }
{
    for row in 0..counts.len() {
        let line = first(counts, row) + depth(counts, row);
        if Slip::MAX_NODES <= line {
            return;
        }
        rows[line] = row as u16;
    }
}
