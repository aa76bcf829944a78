// The pruning of a slip.
#![tactic(auto)]

ghost use Rattle.std.specs.Prelude.{◌≡◌, ◌*◌, ◌≤◌};
ghost use Rattle.sha256.specs.Sha256 as Sha256;
ghost use Rattle.titles.specs.Compose.{composed_text};
ghost use Rattle.trees.specs.Rules.{max_bytes, max_nodes, label_bytes};
ghost use Rattle.outcomes.specs.Refusals.{accepted};
ghost use Rattle.outcomes.specs.Outcome.{Leaves};
ghost use Rattle.answers.specs.Answers.{answer_of};
ghost use Rattle.slips.specs.Check.{header_of};
ghost use Rattle.slips.specs.Opening.{Counted};
ghost use Rattle.prune.specs.Prune.{prune_of};

use answers::{Accepted, Answer};
use outcomes::numbers::Refused;
use slips::{header, open};
use tables::areas::{Areas, Full, Small};
use tables::limits::Slip;
use tables::table::Table;

// Prunes a slip whose header is taken, in areas for so many entries and bytes.
fn prune_in<const NODES: usize, const BYTES: usize, const LABELS: usize>(
    s: &[u8],
    n: usize,
    list: &[u16],
    out: &mut [u8],
) -> Result<Accepted, Refused>
    requires slip { Counted s.now n BYTES NODES × ((header_of s.now).number ≡ accepted) }
    requires room { (NODES ≤ max_nodes) × (BYTES ≤ max_bytes) × (LABELS ≡ label_bytes * NODES) }
    ensures { Leaves (prune_of Sha256.label composed_text s.now list.now out.old) (answer_of result) out.new }
{
    let mut a = Areas::<NODES, BYTES, LABELS>::new();
    let o = open::open_in(
        s,
        n,
        &mut a.types,
        &mut a.counts,
        &mut a.lengths,
        &mut a.values,
        &mut a.labels,
    );
    let label = o.answer?.label;
    let table = Table {
        types: &a.types[..o.rows],
        counts: &a.counts[..o.rows],
        lengths: &a.lengths[..o.rows],
        values: &a.values,
    };
    prune_tables::cut(table, &a.labels, list, label, out)
}

// The refusal of the header, or the slip pruned in areas that suit it.
fn pruned(s: &[u8], list: &[u16], out: &mut [u8]) -> Result<Accepted, Refused>
    ensures { Leaves (prune_of Sha256.label composed_text s.now list.now out.old) (answer_of result) out.new }
{
    let n = match header::header_of(s) {
        Ok(n) => n,
        Err(refusal) => return Err(refusal.at(0)),
    };
    if s.len() <= Small::BYTES && n <= Small::NODES {
        return prune_in::<{ Small::NODES }, { Small::BYTES }, { Small::LABELS }>(s, n, list, out);
    }
    prune_in::<{ Slip::MAX_NODES }, { Slip::MAX_BYTES }, { Full::LABELS }>(s, n, list, out)
}

// Writes the slip of the tree pruned at the internal nodes that the list names by their entry numbers.
pub fn prune(s: &[u8], list: &[u16], out: &mut [u8]) -> Answer
    ensures { Leaves (prune_of Sha256.label composed_text s.now list.now out.old) result out.new }
{
    Answer::from(pruned(s, list, out))
}
