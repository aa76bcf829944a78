// A table's slip handed out with its blocks and its root label: where pack, prune and join end.
#![tactic(auto)]

pub mod blocks;

ghost use Rattle.tables.specs.Tables.{entries, FormedIn};
ghost use Rattle.outcomes.specs.Outcome.{Leaves};
ghost use Rattle.send.specs.Clauses.{SendTreeAsks, SendTreeGives};
ghost use Rattle.send.specs.Sent.{sent, sent_answer};

use answers::Accepted;
use codec::{measure, write};
use outcomes::numbers::Refusal;
use tables::limits::Slip;
use tables::table::Table;

// Writes the slip of a table whose blocks and root label are told, or answers 11.
pub fn send(
    t: Table,
    blocks: usize,
    label: [u8; Slip::LABEL_BYTES],
    out: &mut [u8],
) -> Result<Accepted, Refusal>
    requires { FormedIn t.types.now t.counts.now t.lengths.now t.values.now }
    ensures { Leaves (sent (entries t.entry.types.now t.entry.counts.now t.entry.lengths.now t.entry.values.now) blocks label out.old) (sent_answer result) out.new }
{
    let length = measure::size(t);
    if out.len() < length {
        return Err(Refusal::NoRoom);
    }
    write::write(t, out);
    Ok(Accepted {
        length,
        blocks,
        label,
    })
}

// The same for the table of a tree, whose blocks are counted here.
pub fn send_tree(
    t: Table,
    label: [u8; Slip::LABEL_BYTES],
    out: &mut [u8],
) -> Result<Accepted, Refusal>
    requires { SendTreeAsks t.types.now t.counts.now t.lengths.now t.values.now }
    ensures { SendTreeGives t.entry.types.now t.entry.counts.now t.entry.lengths.now t.entry.values.now label out.old (sent_answer result) out.new }
{
    send(t, blocks::blocks(t.counts, t.lengths), label, out)
}
