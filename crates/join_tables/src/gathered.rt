// The table that a plan names, handed out as a slip unless it is too large.
ghost use Rattle.std.specs.Prelude.{◌*◌, ◌≤◌, length};
ghost use Rattle.trees.specs.Rules.{max_nodes, max_bytes};
ghost use Rattle.send.specs.Clauses.{SendTreeAsks};
ghost use Rattle.send.specs.Sent.{sent_answer};
ghost use Rattle.join_tables.specs.Clauses.{DeliverGives, HandOutAsks, HandOutGives};

use crate::areas::{FullPair, SmallPair};
use answers::Accepted;
use codec::measure;
use columns::gather;
use outcomes::numbers::Refusal;
use tables::areas::Areas;
use tables::limits::Slip;
use tables::table::Table;

// "15, 11", or the slip.
fn deliver(t: Table, label: [u8; Slip::LABEL_BYTES], out: &mut [u8]) -> Result<Accepted, Refusal>
    requires { SendTreeAsks t.types.now t.counts.now t.lengths.now t.values.now }
    ensures { DeliverGives t.entry.types.now t.entry.counts.now t.entry.lengths.now t.entry.values.now label out.old (sent_answer result) out.new }
{
    let bytes = measure::size(t);
    if Slip::MAX_BYTES < bytes {
        return Err(Refusal::JoinTooLarge);
    }
    send::send_tree(t, label, out)
}

// Gathers the plan's table in areas of this size, and delivers it.
fn hand_out_in<const ROWS: usize, const BYTES: usize>(
    plan: &[usize],
    t: Table,
    offsets: &[usize],
    label: [u8; Slip::LABEL_BYTES],
    out: &mut [u8],
) -> Result<Accepted, Refusal>
    requires { HandOutAsks plan.now t offsets.now × (length plan.now ≤ ROWS) × (length t.values.now ≤ BYTES) × (ROWS ≤ 2 * max_nodes) × (BYTES ≤ 2 * max_bytes) }
    ensures { HandOutGives plan.now t.entry offsets.now label out.old (sent_answer result) out.new }
{
    let mut areas = Areas::<ROWS, BYTES, 0>::new();
    let g = gather::gather(
        plan,
        t,
        offsets,
        &mut areas.types,
        &mut areas.counts,
        &mut areas.lengths,
        &mut areas.values,
    );
    deliver(areas.table(g.rows, g.used), label, out)
}

// Hands out the slip of the rows that the plan names, unless it is too large: in areas for a table as small as two small
// slips', or for any, since a plan has no more rows than a slip.
pub fn hand_out(
    plan: &[usize],
    t: Table,
    offsets: &[usize],
    label: [u8; Slip::LABEL_BYTES],
    out: &mut [u8],
) -> Result<Accepted, Refusal>
    requires { HandOutAsks plan.now t offsets.now }
    ensures { HandOutGives plan.now t.entry offsets.now label out.old (sent_answer result) out.new }
{
    if plan.len() <= SmallPair::ROWS && t.values.len() <= SmallPair::BYTES {
        return hand_out_in::<{ SmallPair::ROWS }, { SmallPair::BYTES }>(
            plan, t, offsets, label, out,
        );
    }
    hand_out_in::<{ Slip::MAX_NODES }, { FullPair::BYTES }>(plan, t, offsets, label, out)
}
