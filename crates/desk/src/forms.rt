// desk tree, desk unpack and desk pack: what is made of a file.
use crate::table::Areas;
use crate::{making, verdict};
use desk_files::files;
use desk_files::messages::{Objection, Said};
use desk_files::system::System;
use pages::Page;
use row_lines::writing;
use std::io;
use std::io::Write;
use table_text::reading;
use table_text::reading::Rows;
use tables::limits::Slip;

pub fn tree(rt: &impl System) -> Result<(), Said> {
    let mut space = [0u8; files::ROOM];
    let slip = files::read(rt, 2, &mut space)?;
    verdict::of_file(tree_text::draw(rt, slip), 2)?;
    Ok(())
}

pub fn unpack(rt: &impl System) -> Result<(), Said> {
    let mut space = [0u8; files::ROOM];
    let slip = files::read(rt, 2, &mut space)?;
    let mut areas = Areas::new();
    let table = areas.unpack(slip, 2)?;
    let mut page = Page::new(io::writer(rt));
    writing::write(&mut page, table)?;
    Ok(page.flush()?)
}

pub fn pack(rt: &impl System) -> Result<(), Said> {
    let mut space = [0u8; files::ROOM];
    let text = files::read(rt, 2, &mut space)?;
    if reading::BYTES < text.len() {
        return Err(Said::OfFile(2, Objection::TextLong));
    }
    let mut rows = Rows::new();
    rows.read(text)
        .map_err(|no_row| Said::OfFile(2, Objection::NoRow(no_row)))?;
    packed(rt, &rows)
}

fn packed(rt: &impl System, rows: &Rows) -> Result<(), Said> {
    let mut out = [0u8; Slip::MAX_BYTES];
    let a = pack::pack(rows.table(), &mut out);
    making::put(rt, &out, verdict::of_file(a, 2)?)
}
