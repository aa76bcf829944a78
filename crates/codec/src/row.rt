// One entry of a slip, read as a row of the table.
ghost use Rattle.std.specs.Prelude.{◌≤◌, ◌+◌, ◌*◌, true, ◌≡◌, length, drop, OnSome};
ghost use Rattle.bits.specs.Bits.{bits_of};
ghost use Rattle.trees.specs.Rules.{max_type, max_bytes};
ghost use Rattle.tables.specs.Tables.{row_fits};
ghost use Rattle.codec.specs.Reading.{read_one, read_rest, read_leaf, read_value};
ghost use Rattle.codec.specs.Reader.{RowGives, FieldIs};

use tables::limits::Slip;

// The three cells of the row, and the bit at which its value begins.
#[derive(Clone, Copy)]
pub struct Row {
    pub kind: usize,
    pub count: usize,
    pub length: usize,
    pub from: usize,
}

// A slip that is not too long, and the bit at which the next field of it begins.
#[derive(Clone, Copy)]
pub struct Reader<'a> {
    pub slip: &'a [u8],
    pub at: usize,
    pub ghost long: { length slip.now ≤ max_bytes },
    pub ghost within: { at ≤ 8 * length slip.now },
}

impl<'a> Reader<'a> {
    // Reads the entry here.
    pub fn row(mut self) -> Option<Row>
        ensures { RowGives self.entry.slip.now self.entry.at (read_one (drop self.entry.at (bits_of self.entry.slip.now))) result }
    {
        let lead = self.field(1)?;
        if lead == 0 {
            self.leaf()
        } else {
            self.internal()
        }
    }

    // Reads a field of n bits, or none: "bits end inside .. entry".
    fn field(&mut self, n: usize) -> Option<usize>
        requires { n ≤ 16 }
        ensures is { FieldIs self.old.slip.now self.old.at n result }
        ensures same { self.new.slip.now ≡ self.old.slip.now }
        ensures on { OnSome result (self.new.at ≡ self.old.at + n) }
    {
        let end = self.at + n;
        if 8 * self.slip.len() < end {
            return None;
        }
        let value = bits::bits(self.slip, self.at, n);
        self.at = end;
        Some(value)
    }

    // "then children minus 1 in 5 bits"
    fn internal(mut self) -> Option<Row>
        ensures { RowGives self.entry.slip.now self.entry.at (read_rest 1 (drop self.entry.at (bits_of self.entry.slip.now))) result }
    {
        let others = self.field(Slip::CHILD_BITS)?;
        Some(Row {
            kind: 0,
            count: others + 1,
            length: 0,
            from: self.at,
        })
    }

    // "type in 10 bits; then .."
    fn leaf(mut self) -> Option<Row>
        ensures { RowGives self.entry.slip.now self.entry.at (read_rest 0 (drop self.entry.at (bits_of self.entry.slip.now))) result }
    {
        let kind = self.field(Slip::TYPE_BITS)?;
        if kind == 0 {
            self.valued(kind, Slip::LABEL_BYTES)
        } else {
            self.pair(kind)
        }
    }

    // "the length in 9 bits and the value"
    fn pair(mut self, kind: usize) -> Option<Row>
        requires { (1 ≤ kind) × (kind ≤ max_type) }
        ensures { RowGives self.entry.slip.now self.entry.at (read_leaf kind (drop self.entry.at (bits_of self.entry.slip.now))) result }
    {
        let length = self.field(Slip::LENGTH_BITS)?;
        self.valued(kind, length)
    }

    // A value of `length` bytes.
    fn valued(self, kind: usize, length: usize) -> Option<Row>
        requires { row_fits kind 0 length ≡ true }
        ensures { RowGives self.entry.slip.now self.entry.at (read_value kind length (drop self.entry.at (bits_of self.entry.slip.now))) result }
    {
        if 8 * self.slip.len() < self.at + 8 * length {
            return None;
        }
        Some(Row {
            kind,
            count: 0,
            length,
            from: self.at,
        })
    }
}
