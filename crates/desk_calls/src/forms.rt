// The calls that read a slip: check and unpack.
use crate::answer::Head;
use crate::room;
use fields::Fields;
use pages::{Hex, List};
use std::io;
use std::io::Write;

// check SLIP
pub fn check(page: &mut impl Write, fields: &Fields<'_>) -> io::Result<()> {
    let a = slips::check::check(fields.text(0));
    writeln!(page, "{}", Head(&a))
}

// unpack SLIP ROOM ROOM ROOM ROOM: cells of types, counts and lengths, and bytes of values
pub fn unpack(page: &mut impl Write, fields: &Fields<'_>) -> io::Result<()> {
    let mut types = [room::FILL_CELL; room::MOST];
    let mut counts = [room::FILL_CELL; room::MOST];
    let mut lengths = [room::FILL_CELL; room::MOST];
    let mut values = [room::FILL; room::MOST];
    unpacked(
        page,
        fields.text(0),
        room::first(&mut types, fields.number(1)),
        room::first(&mut counts, fields.number(2)),
        room::first(&mut lengths, fields.number(3)),
        room::first(&mut values, fields.number(4)),
    )
}

fn unpacked(
    page: &mut impl Write,
    slip: &[u8],
    types: &mut [u16],
    counts: &mut [u16],
    lengths: &mut [u16],
    values: &mut [u8],
) -> io::Result<()> {
    let a = unpack::unpack(slip, types, counts, lengths, values);
    write!(page, "{} {} {} ", Head(&a), List(types), List(counts))?;
    writeln!(page, "{} {}", List(lengths), Hex(values))
}
