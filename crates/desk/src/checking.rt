// desk check: a line a file.
use crate::verdict;
use desk_files::messages::Said;
use desk_files::system::System;
use desk_files::{files, messages, refusals};
use pages::Page;
use std::env::Env;
use std::io;
use std::io::Write;

// A line for each argument that names a file, and behind them how many were refused.
pub fn check(rt: &impl System, count: usize) -> Result<(), Said> {
    let mut page = Page::new(io::writer(rt));
    let mut refused = 0;
    for i in 2..count {
        match refuses(rt, &mut page, i) {
            Ok(true) => refused += 1,
            Ok(false) => (),
            Err(e) => {
                pass_over(rt, i + 1, count);
                return Err(Said::from(e));
            }
        }
    }
    page.flush()?;
    if refused == 0 {
        return Ok(());
    }
    let files = count.saturating_sub(2);
    Err(Said::SomeRefused { refused, files })
}

// Behind a failed write the other files are read all the same: each that cannot be is said.
fn pass_over(rt: &impl System, from: usize, count: usize) {
    for i in from..count {
        let mut space = [0u8; files::ROOM];
        if let Err(said) = files::read(rt, i, &mut space) {
            messages::say(rt, said);
        }
    }
}

// Whether a file is refused. One that cannot be read is passed over, and that is said.
fn refuses(rt: &impl System, page: &mut impl Write, i: usize) -> io::Result<bool> {
    let mut space = [0u8; files::ROOM];
    match files::read(rt, i, &mut space) {
        Ok(slip) => checked(rt, page, i, slip),
        Err(said) => {
            messages::say(rt, said);
            Ok(false)
        }
    }
}

fn checked(rt: &impl Env, page: &mut impl Write, i: usize, slip: &[u8]) -> io::Result<bool> {
    match verdict::of(slips::check::check(slip)) {
        Ok(a) => {
            refusals::accepted_line(rt, page, i, a.length, a.blocks, &a.label)?;
            Ok(false)
        }
        Err(refused) => {
            refusals::refused_line(rt, page, i, refused)?;
            Ok(true)
        }
    }
}
