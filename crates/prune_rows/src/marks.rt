// What becomes of each row: one mark a row, found from the last row to the first.
ghost use Rattle.std.specs.Prelude.{◌≡◌, ◌+◌, ◌^◌, ◌≤◌, ◌<◌, ltb, length, map, take};
ghost use Rattle.trees.specs.Rules.{max_nodes};
ghost use Rattle.tables.specs.PruningList.{named, first_fault};
ghost use Rattle.prune_rows.specs.Marks.{mark_by, owed_by, walk, at_end};
ghost use Rattle.prune_rows.specs.Steps.{Before};
ghost use Rattle.tables.specs.ListRule.{Rising};

use tables::form::cell;

#[derive(Clone, Copy, Debug, PartialEq, Eq)]
pub enum Mark {
    // "its descendants go"
    Gone,
    Kept,
    // "Each becomes dangling with its label"
    CutOff,
}

// What a mark is held as: by its name, or as a byte.
pub trait Marking: Copy {
    ghost use Rattle.prune_rows.specs.declared.marks.Mark.{Mark};

    // The mark that it is read as.
    ghost read: { Self → Mark };

    // What is written for a mark.
    ghost made: { Mark → Self };

    fn mark(self) -> Mark
        ensures { result ≡ read self };

    fn of(mark: Mark) -> Self
        ensures { result ≡ made mark };
}

impl Marking for Mark {
    ghost read = { λ m. m };

    ghost made = { λ m. m };

    fn mark(self) -> Mark {
        self
    }

    fn of(mark: Mark) -> Mark {
        mark
    }
}

impl Marking for u8 {
    ghost use Rattle.prune_rows.specs.Marks.{mark_of, byte_of};

    ghost read = { mark_of };

    ghost made = { byte_of };

    // Any byte from 2 on cuts off.
    fn mark(self) -> Mark {
        match self {
            0 => Mark::Gone,
            1 => Mark::Kept,
            _ => Mark::CutOff,
        }
    }

    fn of(mark: Mark) -> u8 {
        match mark {
            Mark::Gone => 0,
            Mark::Kept => 1,
            Mark::CutOff => 2,
        }
    }
}

#[derive(Clone, Copy)]
struct Fate {
    mark: Mark,
    owed: usize,
}

// What becomes of a row with c children, where so many subtrees before it are owed, and what is owed then.
fn fate_of(named: bool, c: usize, owed: usize) -> Fate
    requires { owed + c < 2 ^ 32 }
    ensures { (result.mark ≡ mark_by named owed) × (result.owed ≡ owed_by named c owed) }
{
    if 0 < owed {
        let left = owed - 1;
        let owed = left + c;
        return Fate {
            mark: Mark::Gone,
            owed,
        };
    }
    if named {
        return Fate {
            mark: Mark::CutOff,
            owed: c,
        };
    }
    Fate {
        mark: Mark::Kept,
        owed: 0,
    }
}

// How many names are those of rows before row i, where k are those of rows up to it.
fn before(list: &[u16], k: usize, i: usize) -> usize
    requires { k ≤ length list.now }
    ensures { Rising list.now → Before list.now (i + 1) k → Before list.now i result × (ltb result k ≡ named list.now i) }
{
    if k == 0 {
        return k;
    }
    let last = k - 1;
    if cell(list, last) == i {
        return last;
    }
    k
}

// Marks the rows of a table, by a list without fault.
pub fn mark_rows<M: Marking>(counts: &[u16], list: &[u16], marks: &mut [M])
    requires { (length counts.now ≤ max_nodes) × (length counts.now ≤ length marks.old) × (first_fault counts.now 0 0 list.now ≡ length list.now) }
    ensures { take (length counts.now) marks.new ≡ map M.made (walk (named list.now) counts.now 0 at_end).marks }
{
    let mut k = list.len();
    let mut owed = 0;
    for i in (0..counts.len()).rev() {
        let first = before(list, k, i);
        let f = fate_of(first < k, cell(counts, i), owed);
        marks[i] = M::of(f.mark);
        owed = f.owed;
        k = first;
    }
}
