// Whether a table has the form of document 01.
ghost use Rattle.std.specs.Prelude.{◌≡◌, ◌≤◌, ◌<◌, length, get_or, unwrap_or, IfSome};
ghost use Rattle.trees.specs.Rules.{max_nodes};
ghost use Rattle.tables.specs.Tables as Tables;
ghost use Rattle.tables.specs.Tables.{row_fits, first_bad, columns_fit, table_fits, seen};

use crate::limits::Slip;
use crate::table::Table;

// A cell as a number.
pub fn cell(column: &[u16], i: usize) -> usize
    requires { i < length column.now }
    ensures { (result ≡ get_or column.now i 0) × (result < 65536) }
{
    usize::from(column[i])
}

// Whether a row is internal, dangling or a pair.
#[tactic(auto, using(crate::proofs::Rows::internal_typed, crate::proofs::Rows::internal_long, crate::proofs::Rows::internal_is, crate::proofs::Rows::dangling_is, crate::proofs::Rows::pair_typed, crate::proofs::Rows::pair_is))]
pub fn row_fits(t: usize, c: usize, l: usize) -> bool
    ensures { result ≡ row_fits t c l }
{
    if 1 <= c {
        if t != 0 {
            return false;
        }
        if l != 0 {
            return false;
        }
        return c <= Slip::MAX_CHILDREN;
    }
    if t == 0 {
        return l == Slip::LABEL_BYTES;
    }
    if Slip::MAX_TYPE < t {
        return false;
    }
    l <= Slip::MAX_VALUE
}

// The first row that is not of the form.
pub fn first_bad(t: Table) -> Option<usize>
    requires { (length t.counts.now ≡ length t.types.now) × (length t.lengths.now ≡ length t.types.now) }
    ensures within { IfSome result (λ i. i < length t.entry.types.now) }
    ensures first { unwrap_or result (length t.entry.types.now) ≡ first_bad 0 t.entry.types.now t.entry.counts.now t.entry.lengths.now }
{
    for i in 0..t.types.len() {
        if !row_fits(cell(t.types, i), cell(t.counts, i), cell(t.lengths, i)) {
            return Some(i);
        }
    }
    None
}

pub fn sum(lengths: &[u16]) -> usize
    requires { length lengths.now ≤ max_nodes }
    ensures { result ≡ Tables.sum lengths.now }
{
    lengths.iter().map(|l| usize::from(*l)).sum()
}

// Whether the columns have one row each for at most as many nodes as a slip has.
pub fn columns_fit(t: Table) -> bool
    ensures { result ≡ columns_fit t.entry.types.now t.entry.counts.now t.entry.lengths.now }
{
    let rows = t.types.len();
    t.counts.len() == rows && t.lengths.len() == rows && rows <= Slip::MAX_NODES
}

// Whether the table has the form: number 16 would not refuse it.
pub fn table_fits(t: Table) -> bool
    ensures { result ≡ table_fits (seen t.entry) }
{
    if !columns_fit(t) {
        return false;
    }
    first_bad(t).is_none() && t.values.len() == sum(t.lengths)
}
