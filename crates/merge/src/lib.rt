// The join of the two trees that the columns hold.
#![tactic(auto)]

ghost use Rattle.std.specs.Prelude.{◌*◌, ◌≤◌, ◌<◌, length};
ghost use Rattle.trees.specs.Rules.{max_nodes};
ghost use Rattle.outcomes.specs.Outcome.{Leaves, still};
ghost use Rattle.outcomes.specs.Refusals.{join_too_large};
ghost use Rattle.answers.specs.Answers.{refused, answer_of};
ghost use Rattle.join_tables.specs.Clauses.{HandOutAsks, HandOutGives, MergeAsks, MergeGives};

use answers::{Accepted, Answer};
use columns::survey;
use columns::walkable::Columns;
use join_rows::plan;
use join_tables::areas::{FullPair, SmallPair};
use join_tables::gathered;
use outcomes::numbers::{Refusal, Refused};
use tables::limits::Slip;
use tables::table::Table;

// "15, 11", or the slip of the rows that the plan names.
fn hand_out(
    plan: &[usize],
    t: Table,
    offsets: &[usize],
    label: [u8; Slip::LABEL_BYTES],
    out: &mut [u8],
) -> Result<Accepted, Refused>
    requires { length plan.now ≤ max_nodes → HandOutAsks plan.now t offsets.now }
    ensures large { max_nodes < length plan.now → Leaves (still (refused join_too_large 0) out.old) (answer_of result) out.new }
    ensures fits { length plan.now ≤ max_nodes → HandOutGives plan.now t.entry offsets.now label out.old (answer_of result) out.new }
{
    if Slip::MAX_NODES < plan.len() {
        return Err(Refusal::JoinTooLarge.at(0));
    }
    Ok(gathered::hand_out(plan, t, offsets, label, out)?)
}

// Plans the join in areas of this size, and hands out its slip.
fn merge_in<'a, const ROWS: usize>(
    first: usize,
    label: [u8; Slip::LABEL_BYTES],
    t: Table<'a, 'a>,
    labels: &'a [u8],
    out: &mut [u8],
) -> Answer
    requires { MergeAsks first t labels.now × (length t.types.now ≤ ROWS) × (ROWS ≤ 2 * max_nodes) }
    ensures { MergeGives first label t.entry labels.now out.old result out.new }
{
    let mut starts = [0usize; ROWS];
    let mut offsets = [0usize; ROWS];
    let mut cells = [0usize; ROWS];
    let starts = &mut starts[..t.types.len()];
    let offsets = &mut offsets[..t.types.len()];
    let cells = &mut cells[..t.types.len()];
    survey::survey(t.counts, t.lengths, starts, offsets);
    let c = Columns {
        table: t,
        labels,
        starts,
        offsets,
    };
    match plan::plan(first, c, cells) {
        Ok(rows) => Answer::from(hand_out(&cells[cells.len() - rows..], t, offsets, label, out)),
        Err(clash) => answers::clashed(clash.first, clash.second),
    }
}

// "14 .., 15, 11", or the slip of the joined tree. The first `first` rows are the first tree's; `label` is that of both roots.
pub fn merge<'a>(
    first: usize,
    label: [u8; Slip::LABEL_BYTES],
    t: Table<'a, 'a>,
    labels: &'a [u8],
    out: &mut [u8],
) -> Answer
    requires { MergeAsks first t labels.now }
    ensures { MergeGives first label t.entry labels.now out.old result out.new }
{
    if t.types.len() <= SmallPair::ROWS {
        return merge_in::<{ SmallPair::ROWS }>(first, label, t, labels, out);
    }
    merge_in::<{ FullPair::ROWS }>(first, label, t, labels, out)
}
