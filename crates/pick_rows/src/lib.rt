// The table of the rows that the marks pick.
#![tactic(auto)]

ghost use Rattle.std.specs.Prelude.{◌≡◌, ◌+◌, ◌≤◌, ◌<◌, length, map};
ghost use Rattle.trees.specs.Rules.{label_bytes};
ghost use Rattle.tables.specs.Tables.{entry_of};
ghost use Rattle.prune_rows.specs.Clauses.{PickRoom};
ghost use Rattle.prune_rows.specs.Marks.{cut_off};
ghost use Rattle.prune_rows.specs.Steps.{PutAsks, PutGives, TurnGives, PickAsks, PickGives};

use prune_rows::marks::{Mark, Marking};
use tables::form::cell;
use tables::limits::Slip;
use tables::table::Table;

// The rows of the second table and the bytes of its area.
#[derive(Clone, Copy)]
pub struct Pruned {
    pub rows: usize,
    pub used: usize,
}

// One row more, with its part of the area.
fn put(
    t: u16,
    c: u16,
    l: u16,
    part: &[u8],
    p: Pruned,
    types2: &mut [u16],
    counts2: &mut [u16],
    lengths2: &mut [u16],
    values2: &mut [u8],
) -> Pruned
    requires { PutAsks t c l p.rows p.used part.now types2.old counts2.old lengths2.old values2.old }
    ensures { PutGives (entry_of t c part.now) l p.rows p.used types2.old counts2.old lengths2.old values2.old result.rows result.used types2.new counts2.new lengths2.new values2.new }
{
    let Pruned { rows, used } = p;
    types2[rows] = t;
    counts2[rows] = c;
    lengths2[rows] = l;
    lists::copy(part, &mut values2[used..]);
    Pruned {
        rows: rows + 1,
        used: used + usize::from(l),
    }
}

// One row of the first table, by its mark.
fn turn(
    mark: Mark,
    t: u16,
    c: u16,
    l: u16,
    value: &[u8],
    label: &[u8],
    p: Pruned,
    types2: &mut [u16],
    counts2: &mut [u16],
    lengths2: &mut [u16],
    values2: &mut [u8],
) -> Pruned
    requires { (mark ≡ cut_off → 0 < c) × (length label.now ≡ label_bytes) × PutAsks t c l p.rows p.used value.now types2.old counts2.old lengths2.old values2.old × (p.used + l + label_bytes ≤ length values2.old) }
    ensures { TurnGives mark l (entry_of t c value.now) label.now p.rows p.used types2.old counts2.old lengths2.old values2.old result.rows result.used types2.new counts2.new lengths2.new values2.new }
{
    let long = Slip::LABEL_BYTES as u16;
    match mark {
        Mark::Gone => p,
        Mark::Kept => put(t, c, l, value, p, types2, counts2, lengths2, values2),
        Mark::CutOff => put(0, 0, long, label, p, types2, counts2, lengths2, values2),
    }
}

// The rows that the marks pick, in the second columns and area. These are lent as slices: of a struct that held them each
// contract would have to say that its references stay the same ones.
pub fn pick<M: Marking>(
    t: Table,
    labels: &[u8],
    marks: &[M],
    types2: &mut [u16],
    counts2: &mut [u16],
    lengths2: &mut [u16],
    values2: &mut [u8],
) -> Pruned
    requires pick_asks { PickAsks t.types.now t.counts.now t.lengths.now t.values.now labels.now (map M.read marks.now) }
    requires pick_room { PickRoom t.types.now t.lengths.now types2.old counts2.old lengths2.old values2.old × (length t.types.now ≤ length marks.now) }
    ensures { PickGives t.entry.types.now t.entry.counts.now t.entry.lengths.now t.entry.values.now labels.now (map M.read marks.now) result.rows result.used types2.new counts2.new lengths2.new values2.new }
{
    let mut at = 0;
    let mut p = Pruned { rows: 0, used: 0 };
    for i in 0..t.types.len() {
        let end = at + cell(t.lengths, i);
        let from = Slip::LABEL_BYTES * i;
        let to = from + Slip::LABEL_BYTES;
        p = turn(
            marks[i].mark(),
            t.types[i],
            t.counts[i],
            t.lengths[i],
            &t.values[at..end],
            &labels[from..to],
            p,
            types2,
            counts2,
            lengths2,
            values2,
        );
        at = end;
    }
    p
}
