// The table that a plan names.
ghost use Rattle.std.specs.Prelude.{◌≡◌, map, ℕ, ◌+◌, ◌≤◌, ◌<◌, length, take, get_or};
ghost use Rattle.tables.specs.Tables.{sum};
ghost use Rattle.columns.specs.Columns.{value_at};
ghost use Rattle.lists.specs.Lists.{concat};
ghost use Rattle.columns.specs.Gathers.{cell_of, InRange, GatherAsks, GatherGives};

use tables::table::Table;

// How many rows and value bytes were gathered.
#[derive(Drop)]
pub struct Gathered {
    pub rows: usize,
    pub used: usize,
}

// The cells of one column.
fn copy_cells(plan: &[usize], column: &[u16], out: &mut [u16])
    requires { InRange plan.now (length column.now) × (length plan.now ≤ length out.old) }
    ensures { take (length plan.now) out.new ≡ map (cell_of column.now) plan.now }
{
    for (k, row) in plan.iter().enumerate() {
        out[k] = column[*row];
    }
}

// The values, end to end, and how many bytes they are.
fn copy_values(plan: &[usize], t: Table, offsets: &[usize], out: &mut [u8]) -> usize
    requires { InRange plan.now (length t.lengths.now) × (length offsets.now ≡ length t.lengths.now) × ((x : ℕ) → x < length t.lengths.now → get_or offsets.now x 0 + get_or t.lengths.now x 0 ≤ length t.values.now) × (sum (map (cell_of t.lengths.now) plan.now) ≤ length out.old) }
    ensures { (result ≡ sum (map (cell_of t.entry.lengths.now) plan.now)) × (take result out.new ≡ concat (map (value_at t.entry.lengths.now t.entry.values.now offsets.now) plan.now)) }
{
    let mut used = 0;
    for row in plan {
        let length = usize::from(t.lengths[*row]);
        let from = offsets[*row];
        let to = from + length;
        lists::copy(&t.values[from..to], &mut out[used..]);
        used += length;
    }
    used
}

// The table of the rows that the plan names. Its columns are lent as slices, as those of pick_rows are.
pub fn gather(
    plan: &[usize],
    t: Table,
    offsets: &[usize],
    types: &mut [u16],
    counts: &mut [u16],
    lengths: &mut [u16],
    values: &mut [u8],
) -> Gathered
    requires { GatherAsks plan.now t.types.now t.counts.now t.lengths.now t.values.now offsets.now types.old counts.old lengths.old values.old }
    ensures { GatherGives plan.now t.entry.types.now t.entry.counts.now t.entry.lengths.now t.entry.values.now offsets.now types.new counts.new lengths.new values.new result }
{
    copy_cells(plan, t.types, types);
    copy_cells(plan, t.counts, counts);
    copy_cells(plan, t.lengths, lengths);
    let used = copy_values(plan, t, offsets, values);
    Gathered {
        rows: plan.len(),
        used,
    }
}
