// A table's rows put on a page as text: what `table_text` says of a line, and reads.
use crate::rows::Row;
use pages::Hex;
use std::io;
use std::io::Write;
use tables::limits::Slip;
use tables::table::Table;

pub fn write(page: &mut impl Write, table: Table<'_, '_>) -> io::Result<()> {
    let mut rest = table.values;
    for ((kind, count), length) in table.types.iter().zip(table.counts).zip(table.lengths) {
        let end = parts::end(rest, 0, usize::from(*length));
        let (value, behind) = rest.split_at(end);
        row(page, Row::new(*kind, *count, value))?;
        rest = behind;
    }
    Ok(())
}

fn row(page: &mut impl Write, row: Row<'_>) -> io::Result<()> {
    match row {
        Row::Inner(count) => writeln!(page, "inner {count}"),
        Row::Gone(label) => writeln!(page, "gone {}", Hex(label)),
        Row::Pair(kind, value) => pair(page, kind, value),
    }
}

pub fn pair(page: &mut impl Write, kind: u16, value: &[u8]) -> io::Result<()> {
    write!(page, "pair {kind} {}", Hex(value))?;
    if legible(kind, value) {
        write!(page, " # ")?;
        pages::name(page, value)?;
    }
    writeln!(page)
}

// Whether a value is shown as text as well: one of a type of text, and not empty.
pub fn legible(kind: u16, value: &[u8]) -> bool {
    let kind = usize::from(kind);
    !value.is_empty() && Slip::FIRST_TEXT <= kind && kind <= Slip::LAST_TEXT
}
