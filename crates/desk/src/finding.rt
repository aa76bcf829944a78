// desk find: the value of a type in the first of the slips that has one.
use crate::table::Areas;
use desk_files::messages::Said;
use desk_files::system::System;
use desk_files::{arguments, files};
use pages::Page;
use row_lines::writing;
use std::io;
use std::io::Write;
use tables::table::Table;

// The search ends with the first file that has the type, or that is no slip.
pub fn find(rt: &impl System, count: usize) -> Result<(), Said> {
    let kind = arguments::number(rt, 2)?;
    for i in 3..count {
        if found(rt, kind, i)? {
            return Ok(());
        }
    }
    Ok(rt.write_all(b"none\n")?)
}

// Whether a file has the type: then its value is written out.
fn found(rt: &impl System, kind: u16, i: usize) -> Result<bool, Said> {
    let mut space = [0u8; files::ROOM];
    let slip = files::read(rt, i, &mut space)?;
    let mut areas = Areas::new();
    let Some(value) = value_of(kind, areas.unpack(slip, i)?) else {
        return Ok(false);
    };
    let mut page = Page::new(io::writer(rt));
    arguments::name(rt, &mut page, i)?;
    write!(page, " ")?;
    writing::pair(&mut page, kind, value)?;
    page.flush()?;
    Ok(true)
}

// The lookup's second record is the same one.
fn value_of<'a>(kind: u16, table: Table<'a, 'a>) -> Option<&'a [u8]> {
    if lookup::holder(kind, table, table) == 0 {
        return None;
    }
    Some(lookup::find(kind, table, table))
}
