// The arguments: how many there are, the bytes of one, and the numbers among them.
ghost use Rattle.std.specs.Prelude.{◌≤◌, length};

use crate::messages::Said;
use std::env::{Env, FillError};
use std::io;
use std::io::Write;
use tables::limits::Slip;

// The longest argument that is taken, in bytes: every path is shorter.
pub const BYTES: usize = 4096;

// Where the entries begin among the arguments.
const FIRST: usize = 3;

// One more than a slip has nodes.
pub const ENTRIES: usize = Slip::MAX_NODES + 1;

// How many arguments there are, the program's name among them.
pub fn count(rt: &impl Env) -> usize {
    let mut space = [0u8; 1];
    for i in 0..usize::MAX {
        if let Err(FillError::NotPresent) = rt.arg(i, &mut space) {
            return i;
        }
    }
    usize::MAX
}

// Argument i, put into an area; nothing where it is missing, or longer.
pub fn get<'a>(rt: &impl Env, i: usize, space: &'a mut [u8; BYTES]) -> &'a [u8] {
    let n = put(rt, i, space);
    &space[..n]
}

// Puts argument i into an area, and answers how many bytes it has; 0 where it is missing, or longer.
fn put(rt: &impl Env, i: usize, space: &mut [u8; BYTES]) -> usize
    ensures { result ≤ length space.new }
{
    rt.arg(i, space).unwrap_or(0)
}

// Puts argument i on a page as a name.
pub fn name(rt: &impl Env, page: &mut impl Write, i: usize) -> io::Result<()> {
    let mut space = [0u8; BYTES];
    pages::name(page, get(rt, i, &mut space))
}

// The entries among the arguments, put into a list.
pub fn entries<'a>(
    rt: &impl Env,
    count: usize,
    list: &'a mut [u16; ENTRIES],
) -> Result<&'a [u16], Said> {
    for (i, cell) in (FIRST..count).zip(list.iter_mut()) {
        *cell = number(rt, i)?;
    }
    list.get(..count.saturating_sub(FIRST))
        .ok_or(Said::ManyEntries)
}

// The number that argument i is.
pub fn number(rt: &impl Env, i: usize) -> Result<u16, Said> {
    let mut space = [0u8; BYTES];
    digits::number_of(get(rt, i, &mut space)).ok_or(Said::NoNumber(i))
}
