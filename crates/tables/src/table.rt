// The unpacked table: "Three columns (types, child counts, lengths), one row an entry, and one area with the values and
// dangling labels end to end."

// What is lent of the values may be kept longer than the columns are.
#[derive(Clone, Copy)]
pub struct Table<'c, 'v> {
    pub types: &'c [u16],
    pub counts: &'c [u16],
    pub lengths: &'c [u16],
    pub values: &'v [u8],
}
