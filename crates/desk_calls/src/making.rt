// The calls that fill an output: pack, prune and join with a slip, compose with a title.
use crate::answer::Head;
use crate::finding::table;
use crate::room;
use answers::Answer;
use fields::Fields;
use pages::Hex;
use std::io;
use std::io::Write;

// pack TYPES COUNTS LENGTHS VALUES ROOM
pub fn pack(page: &mut impl Write, fields: &Fields<'_>) -> io::Result<()> {
    let mut buffer = [room::FILL; room::MOST];
    let out = room::first(&mut buffer, fields.number(4));
    let a = pack::pack(table(fields, [0, 1, 2, 3]), out);
    told(page, &a, out)
}

// prune SLIP LIST ROOM
pub fn prune(page: &mut impl Write, fields: &Fields<'_>) -> io::Result<()> {
    let mut buffer = [room::FILL; room::MOST];
    let out = room::first(&mut buffer, fields.number(2));
    let a = prune::prune(fields.text(0), fields.column(1), out);
    told(page, &a, out)
}

// join SLIP SLIP ROOM
pub fn join(page: &mut impl Write, fields: &Fields<'_>) -> io::Result<()> {
    let mut buffer = [room::FILL; room::MOST];
    let out = room::first(&mut buffer, fields.number(2));
    let a = join::join(fields.text(0), fields.text(1), out);
    told(page, &a, out)
}

fn told(page: &mut impl Write, a: &Answer, out: &[u8]) -> io::Result<()> {
    writeln!(page, "{} {}", Head(a), Hex(out))
}

// compose TITLE ROOM: number, place and length
pub fn compose(page: &mut impl Write, fields: &Fields<'_>) -> io::Result<()> {
    let mut buffer = [room::FILL; room::MOST];
    let out = room::first(&mut buffer, fields.number(1));
    let t = titles::compose(fields.text(0), out);
    writeln!(page, "{} {} {} {}", t.number, t.place, t.length, Hex(out))
}
