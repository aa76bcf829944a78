// A slip unpacked into the four buffers of a table.
#![tactic(auto)]

ghost use Rattle.sha256.specs.Sha256 as Sha256;
ghost use Rattle.titles.specs.Compose.{composed_text};
ghost use Rattle.trees.specs.Rules.{max_bytes, max_nodes};
ghost use Rattle.tables.specs.Tables.{table};
ghost use Rattle.slips.specs.Check.{reading_of, body_of};
ghost use Rattle.slips.specs.Opening.{Counted};
ghost use Rattle.outcomes.specs.Outcome.{Leaves};
ghost use Rattle.handing.specs.Handing.{handed_of};
ghost use Rattle.unpack.specs.Unpack.{table_of, unpack_of};

use answers::Answer;
use slips::{header, open};
use tables::areas::Full;
use tables::limits::Slip;
use tables::table::Table;

// A slip whose header is taken.
fn unpack_taken(
    s: &[u8],
    n: usize,
    types_out: &mut [u16],
    counts_out: &mut [u16],
    lengths_out: &mut [u16],
    values_out: &mut [u8],
) -> Answer
    requires { Counted s.now n max_bytes max_nodes }
    ensures { Leaves (handed_of (body_of Sha256.label composed_text s.now) (table_of (reading_of s.now).rows) (table types_out.old counts_out.old lengths_out.old values_out.old)) result (table types_out.new counts_out.new lengths_out.new values_out.new) }
{
    // Five arrays and not one value, whose zeros would be laid down twice: that took a small slip twice the time.
    let mut types = [0u16; Slip::MAX_NODES];
    let mut counts = [0u16; Slip::MAX_NODES];
    let mut lengths = [0u16; Slip::MAX_NODES];
    let mut values = [0u8; Slip::MAX_BYTES];
    let mut labels = [0u8; Full::LABELS];
    let opened = open::open_in(
        s,
        n,
        &mut types,
        &mut counts,
        &mut lengths,
        &mut values,
        &mut labels,
    );
    let t = Table {
        types: &types[..opened.rows],
        counts: &counts[..opened.rows],
        lengths: &lengths[..opened.rows],
        values: &values[..opened.used],
    };
    handing::hand_out(
        Answer::from(opened.answer),
        t,
        types_out,
        counts_out,
        lengths_out,
        values_out,
    )
}

// Checks the slip and writes its table: one row an entry in each column, and the value bytes.
pub fn unpack(
    s: &[u8],
    types_out: &mut [u16],
    counts_out: &mut [u16],
    lengths_out: &mut [u16],
    values_out: &mut [u8],
) -> Answer
    ensures { Leaves (unpack_of Sha256.label composed_text s.now (table types_out.old counts_out.old lengths_out.old values_out.old)) result (table types_out.new counts_out.new lengths_out.new values_out.new) }
{
    match header::header_of(s) {
        Ok(n) => unpack_taken(s, n, types_out, counts_out, lengths_out, values_out),
        Err(refusal) => Answer::from(refusal.at(0)),
    }
}
