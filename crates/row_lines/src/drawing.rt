// The lines of a tree, from the root down: a node each, indented by its depth, with its entry number, the first digits
// of its label, and what it is.
ghost use Rattle.std.specs.Prelude.{◌≤◌};

use crate::rows::Row;
use crate::{cutting, places, writing};
use pages::Hex;
use std::io;
use std::io::Write;
use tables::limits::Slip;
use tables::table::Table;

// The bytes of a label that are shown.
const LABEL: usize = 4;

// Draws the tree of a table; a slip has no more than 1,023 rows.
pub fn draw(page: &mut impl Write, table: Table<'_, '_>, labels: &[u8]) -> io::Result<()> {
    let n = table.counts.len();
    let mut order = [0u16; Slip::MAX_NODES];
    if n <= Slip::MAX_NODES {
        places::order(table.counts, &mut order);
        for row in &order[..n] {
            line(page, table, labels, *row)?;
        }
    }
    page.flush()
}

// The line of a row.
fn line(page: &mut impl Write, table: Table<'_, '_>, labels: &[u8], at: u16) -> io::Result<()> {
    let depth = places::depth(table.counts, usize::from(at));
    let row = Row::at(table, usize::from(at));
    let label = label_of(labels, at, row);
    let margin = margin(depth);
    write!(page, "{:margin$}{at} {} ", "", Hex(label))?;
    match row {
        Row::Inner(count) => writeln!(page, "inner {count}"),
        Row::Gone(_) => writeln!(page, "gone"),
        Row::Pair(kind, value) => pair(
            page,
            kind,
            value,
            cutting::room(usize::from(at), depth, kind),
        ),
    }
}

// What is shown of a row's label: a pair's is its value, and a node that is gone has it there.
fn label_of<'a>(labels: &'a [u8], at: u16, row: Row<'a>) -> &'a [u8] {
    let label = match row {
        Row::Inner(_) => labels
            .get(Slip::LABEL_BYTES * usize::from(at)..)
            .unwrap_or(b""),
        Row::Gone(value) | Row::Pair(_, value) => value,
    };
    label.get(..LABEL).unwrap_or(label)
}

// Two spaces for each node above; a tree is 16 high at most.
fn margin(depth: usize) -> usize {
    if Slip::MAX_HEIGHT < depth {
        0
    } else {
        2 * depth
    }
}

// A pair with as much of its value as there is room for.
fn pair(page: &mut impl Write, kind: u16, value: &[u8], room: usize) -> io::Result<()>
    requires { 3 ≤ room }
{
    let shown = cutting::cut(kind, value, room);
    write!(page, "pair {kind} ")?;
    if writing::legible(kind, value) {
        pages::name(page, shown)?;
    } else {
        write!(page, "{}", Hex(shown))?;
    }
    if shown.len() < value.len() {
        write!(page, "...")?;
    }
    writeln!(page)
}
