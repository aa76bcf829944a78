// A file that an argument names.
ghost use Rattle.std.specs.Prelude.{◌≤◌, length, IfOk};

use crate::arguments;
use crate::messages::Said;
use crate::system::System;
use std::io::{ErrorKind, Read};
use std::rt::Files;
use std::{fs, io, str};
use table_text::reading::BYTES;
use text_lines::reading;

// One byte more than a table's text may have, which is more than a slip has: a longer file is refused all the same.
pub const ROOM: usize = BYTES + 1;

// The file that argument i names, from its start as far as there is room; `-` is standard input.
pub fn read<'a>(rt: &impl System, i: usize, space: &'a mut [u8; ROOM]) -> Result<&'a [u8], Said> {
    let mut name = [0u8; arguments::BYTES];
    match taken(rt, arguments::get(rt, i, &mut name), space) {
        Ok(n) => Ok(&space[..n]),
        Err(_) => Err(Said::CannotRead(i)),
    }
}

fn taken(rt: &impl System, name: &[u8], space: &mut [u8; ROOM]) -> io::Result<usize>
    ensures { IfOk result (λ n. n ≤ length space.new) }
{
    match name {
        b"-" => reading::read_all(&mut rt.reader(), space),
        _ => reading::read_all(&mut opened(rt, name)?, space),
    }
}

// A name that is not UTF-8 is no path.
fn opened<R: Files>(rt: &R, name: &[u8]) -> io::Result<R::File> {
    match str::from_utf8(name) {
        Ok(path) => fs::open(rt, path),
        Err(_) => Err(io::Error::from(ErrorKind::InvalidInput)),
    }
}
