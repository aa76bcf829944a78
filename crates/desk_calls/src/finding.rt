// The lookup in two records.
use fields::Fields;
use pages::Hex;
use std::io;
use std::io::Write;
use tables::table::Table;

// find TYPE, and of each record TYPES COUNTS LENGTHS VALUES: the answer has the record that holds it and the value
pub fn find(page: &mut impl Write, fields: &Fields<'_>) -> io::Result<()> {
    let kind = fields.cell(0);
    let first = table(fields, [1, 2, 3, 4]);
    let second = table(fields, [5, 6, 7, 8]);
    let holder = lookup::holder(kind, first, second);
    writeln!(page, "{holder} {}", Hex(lookup::find(kind, first, second)))
}

// The table whose columns and values are four of the fields.
pub fn table<'a>(fields: &'a Fields<'_>, places: [usize; 4]) -> Table<'a, 'a> {
    let [types, counts, lengths, values] = places;
    Table {
        types: fields.column(types),
        counts: fields.column(counts),
        lengths: fields.column(lengths),
        values: fields.text(values),
    }
}
