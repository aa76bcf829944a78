// The calls that a task may name.
ghost use Rattle.io.specs.Counts.{IsPrefixLen};

use crate::task::Task;
use answers::Answer;

#[derive(Clone, Copy)]
pub enum Call {
    Check,
    Prune,
    Join,
}

// Any other number is a join.
impl From<u16> for Call {
    fn from(number: u16) -> Call {
        match number {
            0 => Call::Check,
            1 => Call::Prune,
            _ => Call::Join,
        }
    }
}

// So many names are read: a longer list is refused at one of them, since a slip has 1,023 nodes at most.
const NAMES: usize = 1024;

pub fn answered(task: &Task<'_>, out: &mut [u8]) -> Answer {
    match task.call {
        Call::Check => slips::check::check(task.first),
        Call::Prune => pruned(task.first, task.second, out),
        Call::Join => join::join(task.first, task.second, out),
    }
}

fn pruned(s: &[u8], list: &[u8], out: &mut [u8]) -> Answer {
    let mut names = [0; NAMES];
    let n = named(list, &mut names);
    prune::prune(s, &names[..n], out)
}

// Puts the names of a list into cells, and answers how many.
fn named(list: &[u8], cells: &mut [u16]) -> usize
    ensures { IsPrefixLen result cells.new }
{
    let (names, _) = list.as_chunks();
    for (cell, name) in cells.iter_mut().zip(names) {
        *cell = u16::from_be_bytes(*name);
    }
    names.len().min(cells.len())
}
