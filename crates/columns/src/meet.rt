// How two rows meet.
ghost use Rattle.std.specs.Prelude.{◌≡◌, ◌<◌, length};
ghost use Rattle.columns.specs.Seen.{head_of};
ghost use Rattle.columns.specs.Meetings.{meeting_at};

use crate::heads::same_heads;
use crate::walkable::Columns;

// What two shared nodes call for: a clash, all rows of one of them, or the join of their runs.
#[derive(Drop)]
pub enum Meeting {
    Clash,
    Take(usize),
    Both,
}

// How two nodes meet, at rows `i` and `j`.
pub fn meet(c: Columns, i: usize, j: usize) -> Meeting
    requires { (i < length c.table.types.now) × (j < length c.table.types.now) }
    ensures { result ≡ meeting_at (head_of c.entry) c.entry.table.counts.now c.entry.starts.now i j }
{
    let a = c.table.counts[i];
    let b = c.table.counts[j];
    if b == 0 {
        return Meeting::Take(i);
    }
    if a == 0 {
        return Meeting::Take(j);
    }
    if a == b && same_heads(c, usize::from(a), i, j) {
        return Meeting::Both;
    }
    Meeting::Clash
}
