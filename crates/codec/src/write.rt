// A table's slip, written row by row.
ghost use Rattle.std.specs.Prelude.{◌≡◌, true, ◌++◌, ◌≤◌, length};
ghost use Rattle.bits.specs.Bits.{bits_in};
ghost use Rattle.bits.specs.Ink.{PutAsks, PutGives};
ghost use Rattle.bits.specs.InkLaws.{start};
ghost use Rattle.trees.specs.Rules.{max_nodes};
ghost use Rattle.tables.specs.Limits.{edition, edition_bits, count_bits, header_bits};
ghost use Rattle.tables.specs.Tables.{entry_of, row_fits};
ghost use Rattle.codec.specs.Writing.{entry_bits};
ghost use Rattle.codec.specs.Writer.{WriteAsks, WriteGives};

use bits::pen::Pen;
use tables::form::cell;
use tables::limits::Slip;
use tables::table::Table;

// "Edition, 6 bits, equal to 1. Node count, 10 bits"
fn write_head(n: usize, out: &mut [u8]) -> Pen
    requires { (n ≤ max_nodes) × PutAsks start header_bits out.old }
    ensures { PutGives start out.old (bits_in edition_bits edition ++ bits_in count_bits n) result out.new }
{
    let mut pen = Pen::new();
    pen.put(Slip::EDITION, Slip::EDITION_BITS, out);
    pen.put(n, Slip::COUNT_BITS, out);
    pen
}

// The entry of one row: its first bit goes with the field behind it.
fn write_row(pen: &mut Pen, kind: usize, count: usize, value: &[u8], out: &mut [u8])
    requires { (row_fits kind count (length value.now) ≡ true) × PutAsks pen.old (length (entry_bits (entry_of kind count value.now))) out.old }
    ensures { PutGives pen.old out.old (entry_bits (entry_of kind count value.now)) pen.new out.new }
{
    if 0 < count {
        let lead = 1 << Slip::CHILD_BITS;
        pen.put(lead + (count - 1), 1 + Slip::CHILD_BITS, out);
        return;
    }
    pen.put(kind, 1 + Slip::TYPE_BITS, out);
    if kind == 0 {
        pen.put_bytes(value, out);
        return;
    }
    pen.put(value.len(), Slip::LENGTH_BITS, out);
    pen.put_bytes(value, out);
}

// Writes the slip of a table and answers its length.
pub fn write(t: Table, out: &mut [u8]) -> usize
    requires { WriteAsks t.types.now t.counts.now t.lengths.now t.values.now out.old }
    ensures { WriteGives t.entry.types.now t.entry.counts.now t.entry.lengths.now t.entry.values.now out.old result out.new }
{
    let rows = t.types.len();
    let mut pen = write_head(rows, out);
    let mut used = 0;
    for i in 0..rows {
        let kind = cell(t.types, i);
        let count = cell(t.counts, i);
        let end = used + cell(t.lengths, i);
        write_row(&mut pen, kind, count, &t.values[used..end], out);
        used = end;
    }
    pen.finish(out)
}
