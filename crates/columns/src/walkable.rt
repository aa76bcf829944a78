// The columns of tables end to end, as they are walked.
ghost use Rattle.columns.specs.Columns.{Walkable};

use tables::table::Table;

// A table, a label a row, and where each row's subtree and value start.
#[derive(Clone, Copy)]
pub struct Columns<'a> {
    pub table: Table<'a, 'a>,
    pub labels: &'a [u8],
    pub starts: &'a [usize],
    pub offsets: &'a [usize],
    pub ghost walkable: { Walkable table.types.now table.counts.now table.lengths.now table.values.now labels.now starts.now offsets.now },
}
