// The rows that make the join of two tables.
ghost use Rattle.join_rows.specs.Plans.{PlanAsks, PlanGives};

use crate::walk::node;
use columns::walkable::Columns;

// The first clash, by its row or its entry in each tree.
#[derive(Clone, Copy)]
pub struct Clash {
    pub first: usize,
    pub second: usize,
}

// The first clash and its entry in each tree, or how many of the plan's last cells name rows of the columns: the join's, of which the first `first` rows are the first table's.
pub fn plan(first: usize, c: Columns, plan: &mut [usize]) -> Result<usize, Clash>
    requires { PlanAsks first c plan.old }
    ensures { PlanGives first c.entry plan.new result }
{
    let end = plan.len();
    let j = c.table.types.len() - 1;
    match node(c, plan, first - 1, j, end) {
        Ok(at) => Ok(end - at),
        Err(clash) => Err(Clash {
            first: clash.first,
            second: clash.second - first,
        }),
    }
}
