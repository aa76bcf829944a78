// desk prune and desk join: a slip on standard output, or nothing there and the refusal on standard error.
use crate::verdict;
use answers::Answer;
use desk_files::messages::{Objection, Said, Unlisted};
use desk_files::refusals::Refused;
use desk_files::system::System;
use desk_files::{arguments, files};
use outcomes::numbers::Refusal;
use slips::header;
use tables::limits::Slip;

// Writes out a slip that was made.
pub fn put(rt: &impl Print, out: &[u8; Slip::MAX_BYTES], a: Answer) -> Result<(), Said> {
    Ok(rt.write_all(parts::part(out, 0, a.length))?)
}

pub fn prune(rt: &impl System, count: usize) -> Result<(), Said> {
    let mut list = [0u16; arguments::ENTRIES];
    let list = arguments::entries(rt, count, &mut list)?;
    let mut space = [0u8; files::ROOM];
    let slip = files::read(rt, 2, &mut space)?;
    pruned(rt, slip, list)
}

fn pruned(rt: &impl Print, slip: &[u8], list: &[u16]) -> Result<(), Said> {
    let mut out = [0u8; Slip::MAX_BYTES];
    match verdict::of(prune::prune(slip, list, &mut out)) {
        Ok(a) => put(rt, &out, a),
        Err(refused) => Err(Said::OfFile(2, objection(slip, list, refused))),
    }
}

fn objection(slip: &[u8], list: &[u16], refused: Refused) -> Objection {
    if refused.refusal != Refusal::BadList {
        return Objection::Refused(refused);
    }
    let place = refused.place;
    let entry = parts::cell(list, place);
    Objection::Unlisted {
        place,
        entry,
        unlisted: unlisted(slip, list, place, entry),
    }
}

// What is wrong with the number at a place of the list.
fn unlisted(slip: &[u8], list: &[u16], place: usize, entry: usize) -> Unlisted {
    if header::header_of(slip).unwrap_or(0) <= entry {
        return Unlisted::NoEntry;
    }
    if rising(list, place, entry) {
        Unlisted::NoInternal
    } else {
        Unlisted::NotRising
    }
}

// Whether the number at a place is above the one before, if there is one.
fn rising(list: &[u16], place: usize, entry: usize) -> bool {
    place == 0 || parts::cell(list, place - 1) < entry
}

pub fn join(rt: &impl System) -> Result<(), Said> {
    let mut first = [0u8; files::ROOM];
    let first = files::read(rt, 2, &mut first)?;
    let mut second = [0u8; files::ROOM];
    let second = files::read(rt, 3, &mut second)?;
    joined(rt, first, second)
}

// A refusal of one of the two slips bears its name, any other both.
fn joined(rt: &impl Print, first: &[u8], second: &[u8]) -> Result<(), Said> {
    let mut out = [0u8; Slip::MAX_BYTES];
    let a = join::join(first, second, &mut out);
    let side = a.side;
    match verdict::of(a) {
        Ok(a) => put(rt, &out, a),
        Err(refused) => {
            let objection = Objection::Refused(refused);
            Err(match side {
                0 => Said::OfFiles(2, 3, objection),
                1 => Said::OfFile(2, objection),
                _ => Said::OfFile(3, objection),
            })
        }
    }
}
