// The two trees walked backwards in step, from their roots, the last child first.
ghost use Rattle.std.specs.Prelude.{◌≡◌, ◌≤◌, ◌<◌, length};
ghost use Rattle.join_rows.specs.Walks.{earlier_of, PutGives, NodeGives, RunGives};

use crate::plan::Clash;
use columns::heads::none_left;
use columns::meet::{Meeting, meet};
use columns::walkable::Columns;

// Writes the rows from `from` up to `to` in front of cell `at`, as far as there is room, and answers the first cell written.
fn put(plan: &mut [usize], at: usize, from: usize, to: usize) -> usize
    requires { at ≤ length plan.old }
    ensures { PutGives from to at plan.old plan.new result }
{
    let mut low = at;
    for row in (from..to).rev() {
        if low == 0 {
            return 0;
        }
        low -= 1;
        plan[low] = row;
    }
    low
}

// The clash in front comes first.
fn earlier(front: Result<usize, Clash>, last: Result<usize, Clash>) -> Result<usize, Clash>
    ensures { result ≡ earlier_of front last }
{
    let low = front?;
    last?;
    Ok(low)
}

// "The join of a node is made from its run of children": the nodes at rows `i` and `j`, in front of cell `at`.
// The first clash, by its rows, or the first cell of the plan that is written.
#[cycle(node_run)]
pub(crate) fn node(
    c: Columns,
    plan: &mut [usize],
    i: usize,
    j: usize,
    at: usize,
) -> Result<usize, Clash>
    requires { (i < length c.table.types.now) × (j < length c.table.types.now) × (at ≤ length plan.old) }
    ensures { NodeGives c.entry plan.old plan.new i j at result }
{
    match meet(c, i, j) {
        Meeting::Clash => Err(Clash {
            first: i,
            second: j,
        }),
        Meeting::Take(row) => Ok(put(plan, at, c.starts[row], row + 1)),
        Meeting::Both => {
            let top = put(plan, at, i, i + 1);
            run(c, plan, i, j, usize::from(c.table.counts[i]), top)
        }
    }
}

// "and the join of a run from its first child and the rest", here from its last: `count` children before rows `e` and `f`.
#[cycle(node_run)]
fn run(
    c: Columns,
    plan: &mut [usize],
    e: usize,
    f: usize,
    count: usize,
    at: usize,
) -> Result<usize, Clash>
    requires { (e ≤ length c.table.types.now) × (f ≤ length c.table.types.now) × (at ≤ length plan.old) }
    ensures { RunGives c.entry plan.old plan.new e f count at result }
{
    if none_left(count, e, f) {
        return Ok(at);
    }
    let x = e - 1;
    let y = f - 1;
    let last = node(c, plan, x, y, at);
    let low = last.unwrap_or(at);
    let e1 = c.starts[x];
    let f1 = c.starts[y];
    let front = run(c, plan, e1, f1, count - 1, low);
    earlier(front, last)
}
