// The rows of a text put into a table.
ghost use Rattle.std.specs.Prelude.{◌≡◌, ◌≤◌, length, take, IfOk};
ghost use Rattle.trees.specs.Rules.{max_nodes};

use crate::faults;
use crate::faults::{Fault, NoRow};
use tables::limits::Slip;
use tables::table::Table;

// The longest text, in bytes.
pub const BYTES: usize = 262144;

pub const ROWS: usize = Slip::MAX_NODES;

// What the area of values holds: two digits of the text stand for a byte.
const VALUES: usize = BYTES / 2;

// The rows of a table, and their values end to end.
#[derive(Drop)]
pub struct Rows {
    types: [u16; ROWS],
    counts: [u16; ROWS],
    lengths: [u16; ROWS],
    values: [u8; VALUES],
    rows: usize,
    used: usize,
    ghost rows_fit: { rows ≤ max_nodes },
    ghost values_fit: { used ≤ 131072 },
}

// What a line says.
#[derive(Clone, Copy)]
struct Row {
    kind: u16,
    count: u16,
    length: u16,
}

impl Rows {
    pub fn new() -> Self {
        Rows {
            types: [0; ROWS],
            counts: [0; ROWS],
            lengths: [0; ROWS],
            values: [0; VALUES],
            rows: 0,
            used: 0,
        }
    }

    // Puts the rows of a text behind those that there are, up to a line that is none.
    pub fn read(&mut self, text: &[u8]) -> Result<(), NoRow> {
        for line in text.split_inclusive(|b| *b == b'\n') {
            let line = line.strip_suffix(b"\n").unwrap_or(line);
            if let Err(fault) = self.push(line) {
                return Err(NoRow {
                    line: self.rows + 1,
                    fault,
                });
            }
        }
        Ok(())
    }

    fn push(&mut self, line: &[u8]) -> Result<(), Fault> {
        let row = self.rows;
        if ROWS <= row {
            return Err(Fault::Rows);
        }
        let Row {
            kind,
            count,
            length,
        } = row_of(line, &mut self.values[self.used..])?;
        self.types[row] = kind;
        self.counts[row] = count;
        self.lengths[row] = length;
        self.used += usize::from(length);
        self.rows += 1;
        Ok(())
    }

    pub fn table(&self) -> Table<'_, '_>
        ensures types { result.types.now ≡ take self.now.rows self.now.types }
        ensures counts { result.counts.now ≡ take self.now.rows self.now.counts }
        ensures lengths { result.lengths.now ≡ take self.now.rows self.now.lengths }
        ensures values { result.values.now ≡ take self.now.used self.now.values }
    {
        Table {
            types: &self.types[..self.rows],
            counts: &self.counts[..self.rows],
            lengths: &self.lengths[..self.rows],
            values: &self.values[..self.used],
        }
    }
}

// What a line says. The value, if there is one, is put at the start of the room.
fn row_of(line: &[u8], room: &mut [u8]) -> Result<Row, Fault>
    ensures { IfOk result (λ row. row.length ≤ length room.new) }
{
    let (word, rest) = cut(spoken(line));
    match word {
        b"inner" => inner(rest),
        b"gone" => valued(0, rest, room),
        b"pair" => pair(rest, room),
        _ => Err(Fault::Word),
    }
}

// What of a line is read: what stands before a `#` that has a space before it.
fn spoken(line: &[u8]) -> &[u8] {
    match parts::find(line, b'#') {
        Some(mark) => line[..mark].strip_suffix(b" ").unwrap_or(line),
        None => line,
    }
}

// What stands before the first space, and behind it.
fn cut(text: &[u8]) -> (&[u8], &[u8]) {
    match parts::find(text, b' ') {
        Some(at) => (&text[..at], &text[at + 1..]),
        None => (text, b""),
    }
}

fn number(word: &[u8]) -> Result<u16, Fault> {
    digits::number_of(word).ok_or(Fault::Number)
}

fn inner(word: &[u8]) -> Result<Row, Fault>
    ensures { IfOk result (λ row. row.length ≡ 0) }
{
    let count = number(word)?;
    Ok(Row {
        kind: 0,
        count,
        length: 0,
    })
}

fn pair(rest: &[u8], room: &mut [u8]) -> Result<Row, Fault>
    ensures { IfOk result (λ row. row.length ≤ length room.new) }
{
    let (kind, digits) = cut(rest);
    valued(number(kind)?, digits, room)
}

// A row, but for a value whose length no cell holds.
fn valued(kind: u16, digits: &[u8], room: &mut [u8]) -> Result<Row, Fault>
    ensures { IfOk result (λ row. row.length ≤ length room.new) }
{
    let n = fields::hex(digits, room).ok_or_else(|| faults::of_digits(digits))?;
    let length = u16::try_from(n).map_err(|_| Fault::Long)?;
    Ok(Row {
        kind,
        count: 0,
        length,
    })
}
