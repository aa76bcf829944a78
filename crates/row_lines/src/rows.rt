// The rows of a table.
ghost use Rattle.std.specs.Prelude.{◌≡◌, ◌<◌};

use tables::table::Table;

// What a row is: an internal node with so many children, a node that is gone with its label, or a pair with its type and
// value.
#[derive(Clone, Copy)]
pub enum Row<'a> {
    Inner(u16),
    Gone(&'a [u8]),
    Pair(u16, &'a [u8]),
}

impl<'a> Row<'a> {
    pub fn new(kind: u16, count: u16, value: &'a [u8]) -> Self
        ensures inner { 0 < count → result ≡ Row.Inner count }
        ensures gone { count ≡ 0 → kind ≡ 0 → result ≡ Row.Gone value.entry }
        ensures pair { count ≡ 0 → 0 < kind → result ≡ Row.Pair kind value.entry }
    {
        if 0 < count {
            Row::Inner(count)
        } else if kind == 0 {
            Row::Gone(value)
        } else {
            Row::Pair(kind, value)
        }
    }

    // A row of a table by its number.
    pub fn at(table: Table<'a, 'a>, row: usize) -> Self {
        let start = parts::start(table.values, table.lengths, row);
        let end = parts::end(table.values, start, parts::cell(table.lengths, row));
        Row::new(
            cell(table.types, row),
            cell(table.counts, row),
            parts::part(table.values, start, end),
        )
    }
}

fn cell(column: &[u16], row: usize) -> u16 {
    column.get(row).copied().unwrap_or(0)
}
