// The entries of a slip, read into the columns and the values area of a table.
ghost use Rattle.std.specs.Prelude.{drop};
ghost use Rattle.bits.specs.Bits.{bits_of};
ghost use Rattle.codec.specs.Reading.{read_all};
ghost use Rattle.tables.specs.Limits.{header_bits};
ghost use Rattle.codec.specs.Reader.{FillAsks, FillGives};

use crate::row::Reader;
use tables::limits::Slip;

// How many rows and bytes of values were read, and the bit behind them: Ok where all that were asked for were there, else Err.
#[derive(Clone, Copy)]
pub struct Filled {
    pub rows: usize,
    pub used: usize,
    pub rest: Result<usize, usize>,
}

// Reads up to n entries behind the header of s, while the bits last. The columns are lent as slices, as a slip is opened.
pub fn fill(
    s: &[u8],
    n: usize,
    types: &mut [u16],
    counts: &mut [u16],
    lengths: &mut [u16],
    values: &mut [u8],
) -> Filled
    requires { FillAsks s.now n types.old counts.old lengths.old values.old }
    ensures { FillGives s.now n (read_all n (drop header_bits (bits_of s.now))) result types.new counts.new lengths.new values.new }
{
    let mut at = Slip::EDITION_BITS + Slip::COUNT_BITS;
    let mut used = 0;
    for i in 0..n {
        let Some(row) = (Reader { slip: s, at }).row() else {
            return Filled {
                rows: i,
                used,
                rest: Err(at),
            };
        };
        let end = used + row.length;
        types[i] = row.kind as u16;
        counts[i] = row.count as u16;
        lengths[i] = row.length as u16;
        bits::copy(s, row.from, &mut values[used..end]);
        used = end;
        at = row.from + 8 * row.length;
    }
    Filled {
        rows: n,
        used,
        rest: Ok(at),
    }
}
