// Two slips held in one set of columns, the second's table behind the first's.
#![tactic(auto)]

pub mod headed;

ghost use Rattle.both_slips.specs.Clauses.{areas, BehindAsks, BehindGives, BothAsks, BothGives};

use crate::headed::HeadedSlip;
use answers::Answer;
use slips::open;
use slips::open::Opened;
use tables::limits::Slip;

// Both tables end to end: the first slip's answer, and how many rows the first and both have.
#[derive(Drop)]
pub struct Held {
    pub answer: Answer,
    pub first: usize,
    pub rows: usize,
}

// Opens the second slip behind the rows and the value bytes of the first: in parts of the areas, which are slices for that.
fn open_behind(
    second: HeadedSlip,
    first: usize,
    used: usize,
    types: &mut [u16],
    counts: &mut [u16],
    lengths: &mut [u16],
    values: &mut [u8],
    labels: &mut [u8],
) -> Opened
    requires { BehindAsks second.bytes.now second.nodes first used types.old counts.old lengths.old values.old labels.old }
    ensures { BehindGives second.entry.bytes.now first used result (areas types.old counts.old lengths.old values.old labels.old) (areas types.new counts.new lengths.new values.new labels.new) }
{
    let at = Slip::LABEL_BYTES * first;
    open::open_in(
        second.bytes,
        second.nodes,
        &mut types[first..],
        &mut counts[first..],
        &mut lengths[first..],
        &mut values[used..],
        &mut labels[at..],
    )
}

// Holds both slips, or answers why not. The second is opened where the first is refused too: one way to carry the areas.
pub fn hold_both(
    first: HeadedSlip,
    second: HeadedSlip,
    types: &mut [u16],
    counts: &mut [u16],
    lengths: &mut [u16],
    values: &mut [u8],
    labels: &mut [u8],
) -> Result<Held, Answer>
    requires { BothAsks first second types.old counts.old lengths.old values.old labels.old }
    ensures { BothGives first.entry.bytes.now second.entry.bytes.now result types.new counts.new lengths.new values.new labels.new }
{
    // a slip has no more value bytes than bytes, so the rest of the values stays free for the second
    let room = first.bytes.len();
    let a = open::open_in(
        first.bytes,
        first.nodes,
        types,
        counts,
        lengths,
        &mut values[..room],
        labels,
    );
    let b = open_behind(
        second, a.rows, a.used, types, counts, lengths, values, labels,
    );
    let answer = answers::both(Answer::from(a.answer), Answer::from(b.answer));
    if !answer.is_accepted() {
        return Err(answer);
    }
    Ok(Held {
        answer,
        first: a.rows,
        rows: a.rows + b.rows,
    })
}
