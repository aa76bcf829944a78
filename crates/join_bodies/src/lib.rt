// The join of two slips whose headers are taken.
#![tactic(auto)]

ghost use Rattle.std.specs.Prelude.{◌≡◌, ◌&&◌, ◌+◌, ◌*◌, ◌≤◌, leb, length};
ghost use Rattle.trees.specs.Rules.{label_bytes, max_bytes, max_nodes};
ghost use Rattle.sha256.specs.Sha256 as Sha256;
ghost use Rattle.titles.specs.Compose.{composed_text};
ghost use Rattle.tables.specs.Areas.{small_bytes, small_nodes};
ghost use Rattle.outcomes.specs.Outcome.{Leaves};
ghost use Rattle.join_bodies.specs.Bodies.{bodies_of};

use answers::Answer;
use both_slips::headed::HeadedSlip;
use join_tables::areas::{FullPair, SmallPair};
use tables::areas::{Areas, Small};

// Joins two slips in areas of this size.
fn join_in<const ROWS: usize, const BYTES: usize, const LABELS: usize>(
    first: HeadedSlip,
    second: HeadedSlip,
    out: &mut [u8],
) -> Answer
    requires room { (first.nodes + second.nodes ≤ ROWS) × (length first.bytes.now + length second.bytes.now ≤ BYTES) }
    requires sizes { (ROWS ≤ 2 * max_nodes) × (BYTES ≤ 2 * max_bytes) × (LABELS ≡ label_bytes * ROWS) }
    ensures { Leaves (bodies_of Sha256.label composed_text first.entry.bytes.now second.entry.bytes.now out.old) result out.new }
{
    let mut areas = Areas::<ROWS, BYTES, LABELS>::new();
    let held = both_slips::hold_both(
        first,
        second,
        &mut areas.types,
        &mut areas.counts,
        &mut areas.lengths,
        &mut areas.values,
        &mut areas.labels,
    );
    match held {
        Ok(held) => merge::merge(
            held.first,
            held.answer.label,
            areas.table(held.rows, BYTES),
            &areas.labels,
            out,
        ),
        Err(refusal) => refusal,
    }
}

// Whether a slip is a small one.
fn is_small(s: HeadedSlip) -> bool
    ensures { result ≡ (leb (length s.entry.bytes.now) small_bytes && leb s.entry.nodes small_nodes) }
{
    s.bytes.len() <= Small::BYTES && s.nodes <= Small::NODES
}

// Joins two slips into an output, in areas that suit them.
pub fn join_bodies(first: HeadedSlip, second: HeadedSlip, out: &mut [u8]) -> Answer
    ensures { Leaves (bodies_of Sha256.label composed_text first.entry.bytes.now second.entry.bytes.now out.old) result out.new }
{
    if is_small(first) && is_small(second) {
        return join_in::<{ SmallPair::ROWS }, { SmallPair::BYTES }, { SmallPair::LABELS }>(
            first, second, out,
        );
    }
    join_in::<{ FullPair::ROWS }, { FullPair::BYTES }, { FullPair::LABELS }>(first, second, out)
}
