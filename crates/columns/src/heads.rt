// Whether two internal rows have the same heads of children, which says that their prelabels are equal.
ghost use Rattle.std.specs.Prelude.{◌≡◌, ◌≤◌, ◌<◌, length};
ghost use Rattle.columns.specs.Columns.{heads_back, same_head, heads_agree, none_left};
ghost use Rattle.columns.specs.Seen.{text_of, head_of};

use crate::walkable::Columns;
use tables::limits::Slip;

// The label of a row.
fn label<'a>(c: Columns<'a>, x: usize) -> &'a [u8]
    requires { x < length c.table.types.now }
    ensures { result.now ≡ text_of c.entry x }
{
    if c.table.counts[x] == 0 {
        let from = c.offsets[x];
        let to = from + usize::from(c.table.lengths[x]);
        return &c.table.values[from..to];
    }
    let at = Slip::LABEL_BYTES * x;
    &c.labels[at..at + Slip::LABEL_BYTES]
}

// Whether the parents of two rows hash the same of them.
fn same_head(c: Columns, x: usize, y: usize) -> bool
    requires { (x < length c.table.types.now) × (y < length c.table.types.now) }
    ensures { result ≡ same_head (head_of c.entry x) (head_of c.entry y) }
{
    c.table.types[x] == c.table.types[y] && label(c, x) == label(c, y)
}

// No child is left, or no row before `e` or `f`.
pub fn none_left(count: usize, e: usize, f: usize) -> bool
    ensures { result ≡ none_left count e f }
{
    count == 0 || e == 0 || f == 0
}

// Whether the roots of the last `count` subtrees before row `i` and before row `j` have the same heads, as far as both go.
pub(crate) fn same_heads(c: Columns, count: usize, i: usize, j: usize) -> bool
    requires { (i ≤ length c.table.types.now) × (j ≤ length c.table.types.now) }
    ensures { result ≡ heads_agree (heads_back (head_of c.entry) c.entry.starts.now count i) (heads_back (head_of c.entry) c.entry.starts.now count j) }
{
    let mut e = i;
    let mut f = j;
    for k in 0..count {
        if none_left(count - k, e, f) {
            return true;
        }
        if !same_head(c, e - 1, f - 1) {
            return false;
        }
        e = c.starts[e - 1];
        f = c.starts[f - 1];
    }
    true
}
