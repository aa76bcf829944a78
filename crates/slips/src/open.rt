// A slip opened: its table read, judged and settled, in areas that the caller lends.
ghost use Rattle.std.specs.Prelude.{◌≡◌, ◌*◌, ◌≤◌, length, drop, is_ok};
ghost use Rattle.bits.specs.Bits.{bits_of};
ghost use Rattle.trees.specs.Rules.{max_bytes};
ghost use Rattle.codec.specs.Reader.{stop};
ghost use Rattle.engine.specs.Engine.{judged_seen};
ghost use Rattle.answers.specs.Answers.{answer_of};
ghost use Rattle.slips.specs.Check.{padding_fits};
ghost use Rattle.slips.specs.Opening.{OpenAsks, OpenGives, settled_by};

use answers::Accepted;
use bits::read;
use codec::fill;
use codec::fill::Filled;
use engine::judge;
use engine::judge::Judged;
use outcomes::numbers::{Refusal, Refused};
use tables::table::Table;

// The answer, and how much of the areas the table takes.
#[derive(Drop)]
pub struct Opened {
    pub answer: Result<Accepted, Refused>,
    pub rows: usize,
    pub used: usize,
}

// "0 to 7 zero bits to the byte's end, and nothing more."
fn padding_fits(s: &[u8], at: usize) -> bool
    requires { (length s.now ≤ max_bytes) × (at ≤ 8 * length s.now) }
    ensures { result ≡ padding_fits (drop at (bits_of s.now)) }
{
    let left = 8 * s.len() - at;
    left < 8 && read::bits(s, at, left) == 0
}

// What was read and what the engine tells of it, in the document's order.
fn settled(s: &[u8], f: Filled, judged: Result<Judged, Refused>) -> Result<Accepted, Refused>
    requires { (length s.now ≤ max_bytes) × (stop f.rest ≤ 8 * length s.now) }
    ensures { answer_of result ≡ settled_by (length s.now) f.rows (is_ok f.rest) (drop (stop f.rest) (bits_of s.now)) (judged_seen judged) }
{
    let judged = judged?;
    let Ok(at) = f.rest else {
        return Err(Refusal::CutShort.at(f.rows));
    };
    let Some(label) = judged.root else {
        return Err(Refusal::NotOneTree.at(0));
    };
    if !padding_fits(s, at) {
        return Err(Refusal::BadPadding.at(0));
    }
    Ok(Accepted {
        length: s.len(),
        blocks: judged.blocks,
        label,
    })
}

// Reads the n entries of a slip whose header is taken into the columns and the values area, and judges them. The areas are
// lent as slices, not as one value: two slips are opened end to end in the same ones.
pub fn open_in(
    s: &[u8],
    n: usize,
    types: &mut [u16],
    counts: &mut [u16],
    lengths: &mut [u16],
    values: &mut [u8],
    labels: &mut [u8],
) -> Opened
    requires { OpenAsks s.now n types.old counts.old lengths.old values.old labels.old }
    ensures { OpenGives s.now result types.new counts.new lengths.new values.new labels.new }
{
    let f = fill::fill(s, n, types, counts, lengths, values);
    let t = Table {
        types: &types[..f.rows],
        counts: &counts[..f.rows],
        lengths: &lengths[..f.rows],
        values: &values[..f.used],
    };
    Opened {
        answer: settled(s, f, judge::judge(t, labels)),
        rows: f.rows,
        used: f.used,
    }
}
