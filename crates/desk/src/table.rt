// The table of a slip.
use crate::verdict;
use desk_files::messages::Said;
use slips::header;
use tables::limits::Slip;
use tables::table::Table;

// What it is unpacked into.
#[derive(Drop)]
pub struct Areas {
    types: [u16; Slip::MAX_NODES],
    counts: [u16; Slip::MAX_NODES],
    lengths: [u16; Slip::MAX_NODES],
    values: [u8; Slip::MAX_BYTES],
}

impl Areas {
    pub fn new() -> Self {
        Areas {
            types: [0; Slip::MAX_NODES],
            counts: [0; Slip::MAX_NODES],
            lengths: [0; Slip::MAX_NODES],
            values: [0; Slip::MAX_BYTES],
        }
    }

    // The table of the slip that the file of argument i is.
    pub fn unpack(&mut self, slip: &[u8], i: usize) -> Result<Table<'_, '_>, Said> {
        let Areas {
            types,
            counts,
            lengths,
            values,
        } = self;
        let a = unpack::unpack(slip, types, counts, lengths, values);
        verdict::of_file(a, i)?;
        let n = header::header_of(slip).unwrap_or(0);
        let lengths = parts::part(lengths, 0, n);
        let used = parts::start(values, lengths, n);
        Ok(Table {
            types: parts::part(types, 0, n),
            counts: parts::part(counts, 0, n),
            lengths,
            values: parts::part(values, 0, used),
        })
    }
}
