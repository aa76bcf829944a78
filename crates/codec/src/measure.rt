// The size of a table's slip.
ghost use Rattle.std.specs.Prelude.{◌≡◌, ◌<◌, ◌≤◌};
ghost use Rattle.tables.specs.Measure.{row_bits};
ghost use Rattle.tables.specs.Tables.{Columns};
ghost use Rattle.codec.specs.Writer.{MeasureGives, SizeGives};

use tables::form::cell;
use tables::limits::Slip;
use tables::table::Table;

// "An entry takes 6, 267 or 20 + 8 × length bits." The bound is that of any 16-bit length.
#[tactic(auto, using(crate::specs::MeasureLaws::node_bits, crate::specs::MeasureLaws::dangling_bits, crate::specs::MeasureLaws::pair_bits))]
fn row_bits(kind: usize, count: usize, length: usize) -> usize
    requires { length < 65536 }
    ensures { (result ≡ row_bits kind count length) × (result ≤ 524308) }
{
    if 0 < count {
        return 1 + Slip::CHILD_BITS;
    }
    let leaf = 1 + Slip::TYPE_BITS + 8 * length;
    if kind == 0 {
        leaf
    } else {
        leaf + Slip::LENGTH_BITS
    }
}

// The bits of a table's slip, its header among them and its padding not.
fn measure(t: Table) -> usize
    requires { Columns t.types.now t.counts.now t.lengths.now }
    ensures { MeasureGives t.entry.types.now t.entry.counts.now t.entry.lengths.now result }
{
    let mut total = Slip::EDITION_BITS + Slip::COUNT_BITS;
    for i in 0..t.types.len() {
        total += row_bits(cell(t.types, i), cell(t.counts, i), cell(t.lengths, i));
    }
    total
}

// The bytes of a table's slip: its bits, and zeros to the end of the last byte.
pub fn size(t: Table) -> usize
    requires { Columns t.types.now t.counts.now t.lengths.now }
    ensures { SizeGives t.entry.types.now t.entry.counts.now t.entry.lengths.now result }
{
    measure(t).div_ceil(8)
}
