// The pruning of a table: the list's fault, or the pruned tree's slip.
#![tactic(auto)]

ghost use Rattle.std.specs.Prelude.{◌+◌, ◌*◌, ◌≤◌, length};
ghost use Rattle.trees.specs.Rules.{max_nodes, max_bytes, label_bytes};
ghost use Rattle.answers.specs.Answers.{answer_of};
ghost use Rattle.send.specs.Sent.{sent_answer};
ghost use Rattle.prune_tables.specs.Clauses.{CutAsks, CutGives, CleanAsks, CleanGives};

use answers::Accepted;
use outcomes::numbers::{Refusal, Refused};
use prune_rows::marks::Mark;
use prune_rows::{marks, names};
use tables::areas::{Full, Small};
use tables::limits::Slip;
use tables::table::Table;

// What the pruned table's values take: those of the table, and a label for each row.
const SMALL: usize = Small::BYTES + Small::LABELS;

const FULL: usize = Slip::MAX_BYTES + Full::LABELS;

// Prunes a table by a list without fault, in areas for so many rows and bytes, and sends the pruned tree's slip.
fn send_pruned<const ROWS: usize, const BYTES: usize>(
    t: Table,
    labels: &[u8],
    list: &[u16],
    label: [u8; Slip::LABEL_BYTES],
    out: &mut [u8],
) -> Result<Accepted, Refusal>
    requires clean { CleanAsks t.types.now t.counts.now t.lengths.now t.values.now labels.now list.now }
    requires room { (length t.types.now ≤ ROWS) × (length t.values.now + label_bytes * length t.types.now ≤ BYTES) × (ROWS ≤ max_nodes) × (BYTES ≤ 2 * max_bytes) }
    ensures { CleanGives t.entry.types.now t.entry.counts.now t.entry.lengths.now t.entry.values.now labels.now list.now label out.old (sent_answer result) out.new }
{
    let mut marks = [Mark::Gone; Slip::MAX_NODES];
    marks::mark_rows(t.counts, list, &mut marks);
    let mut types = [0u16; ROWS];
    let mut counts = [0u16; ROWS];
    let mut lengths = [0u16; ROWS];
    let mut values = [0u8; BYTES];
    let p = pick_rows::pick(
        t,
        labels,
        &marks,
        &mut types,
        &mut counts,
        &mut lengths,
        &mut values,
    );
    let pruned = Table {
        types: &types[..p.rows],
        counts: &counts[..p.rows],
        lengths: &lengths[..p.rows],
        values: &values[..p.used],
    };
    send::send_tree(pruned, label, out)
}

// The same in areas that suit the table.
fn send_clean(
    t: Table,
    labels: &[u8],
    list: &[u16],
    label: [u8; Slip::LABEL_BYTES],
    out: &mut [u8],
) -> Result<Accepted, Refusal>
    requires { CleanAsks t.types.now t.counts.now t.lengths.now t.values.now labels.now list.now }
    ensures { CleanGives t.entry.types.now t.entry.counts.now t.entry.lengths.now t.entry.values.now labels.now list.now label out.old (sent_answer result) out.new }
{
    if t.types.len() <= Small::NODES && t.values.len() <= Small::BYTES {
        return send_pruned::<{ Small::NODES }, SMALL>(t, labels, list, label, out);
    }
    send_pruned::<{ Slip::MAX_NODES }, FULL>(t, labels, list, label, out)
}

// "12, 11", or the slip of the tree that the table holds, pruned; its root label is told.
pub fn cut(
    t: Table,
    labels: &[u8],
    list: &[u16],
    label: [u8; Slip::LABEL_BYTES],
    out: &mut [u8],
) -> Result<Accepted, Refused>
    requires { CutAsks t.types.now t.counts.now t.lengths.now t.values.now labels.now }
    ensures { CutGives t.entry.types.now t.entry.counts.now t.entry.lengths.now t.entry.values.now labels.now list.now label out.old (answer_of result) out.new }
{
    if let Some(bad) = names::first_fault(list, t.counts) {
        return Err(Refusal::BadList.at(bad));
    }
    Ok(send_clean(t, labels, list, label, out)?)
}
