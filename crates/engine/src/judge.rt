// What is told of a table's rows.
ghost use Rattle.std.specs.Prelude.{◌≤◌, ◌*◌};
ghost use Rattle.trees.specs.Rules.{max_nodes, max_bytes};
ghost use Rattle.tables.specs.Tables.{seen};
ghost use Rattle.engine.specs.Judging.{JudgeAsks, JudgeSizedAsks, JudgeGives};

use outcomes::numbers::Refused;
use stack::bounded::Bounded;
use tables::areas::{Full, Small};
use tables::form;
use tables::limits::Slip;
use tables::table::Table;

// The blocks compressed, and the label of a root of type 0 that waits alone.
#[derive(Clone, Copy)]
pub struct Judged {
    pub blocks: usize,
    pub root: Option<[u8; Slip::LABEL_BYTES]>,
}

// The rows in turn, on a stack for so many: the first refusal, or what waits at the end. The label of each internal node
// is left at its row in `labels`.
fn judge_in<const NODES: usize, const WORK: usize>(
    t: Table,
    labels: &mut [u8],
) -> Result<Judged, Refused>
    requires asks { JudgeSizedAsks (seen t) labels.old NODES WORK }
    requires sizes { (NODES ≤ max_nodes) × (WORK ≤ 2 * max_bytes) }
    ensures { JudgeGives (seen t.entry) result labels.new }
{
    let mut bounded = Bounded::<NODES, WORK>::new();
    let mut at = 0;
    for i in 0..t.types.len() {
        let kind = form::cell(t.types, i);
        let count = form::cell(t.counts, i);
        let end = at + form::cell(t.lengths, i);
        let value = &t.values[at..end];
        if let Err(refusal) = faults::fault(kind, count, value, bounded.stack().waiting()) {
            return Err(refusal.at(i));
        }
        bounded.grow(kind, count, value, i, labels);
        at = end;
    }
    let stack = bounded.stack();
    Ok(Judged {
        blocks: stack.blocks(),
        root: stack.root(),
    })
}

// What the rows of a table tell, and the label of each internal node at its row in `labels`.
pub fn judge(t: Table, labels: &mut [u8]) -> Result<Judged, Refused>
    requires { JudgeAsks (seen t) labels.old }
    ensures { JudgeGives (seen t.entry) result labels.new }
{
    if t.types.len() <= Small::NODES && t.values.len() <= Small::BYTES {
        judge_in::<{ Small::NODES }, { Small::WORK }>(t, labels)
    } else {
        judge_in::<{ Slip::MAX_NODES }, { Full::WORK }>(t, labels)
    }
}
