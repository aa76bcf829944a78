// Slips on the command line: a word, and behind it the files and numbers that it asks for. A file is known by the number
// of its argument.
#![tactic(auto)]

mod checking;
mod finding;
mod forms;
mod making;
mod table;
mod verdict;

use desk_calls::session;
use desk_files::command::Command;
use desk_files::messages::Said;
use desk_files::system::System;
use desk_files::{arguments, messages};
use std::env::Env;

fn main(rt: HostRuntime) {
    let count = arguments::count(&rt);
    if let Err(said) = run(&rt, count) {
        messages::say(&rt, said);
    }
}

// The command that the first word names.
fn asked(rt: &impl Env, count: usize) -> Result<Command, Said> {
    if count < 2 {
        return Err(Said::NoWord);
    }
    let mut space = [0u8; arguments::BYTES];
    let command = Command::named(arguments::get(rt, 1, &mut space)).ok_or(Said::NoCommand(1))?;
    if command.fits(count) {
        Ok(command)
    } else {
        Err(Said::Usage(command))
    }
}

fn run(rt: &impl System, count: usize) -> Result<(), Said> {
    match asked(rt, count)? {
        Command::Check => checking::check(rt, count),
        Command::Tree => forms::tree(rt),
        Command::Unpack => forms::unpack(rt),
        Command::Pack => forms::pack(rt),
        Command::Prune => making::prune(rt, count),
        Command::Join => making::join(rt),
        Command::Find => finding::find(rt, count),
        Command::Calls => {
            session::run(rt);
            Ok(())
        }
        Command::Version => Ok(messages::version(rt)?),
        Command::Help => Ok(messages::help(rt)?),
    }
}
