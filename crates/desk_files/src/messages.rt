// What is said on standard error, a line each, and how to use the program. A file is told by the number of its argument.
use crate::arguments;
use crate::command::Command;
use crate::refusals::Refused;
use outcomes::numbers::Refusal;
use pages::{Complaints, Page};
use std::env::Env;
use std::io::Write;
use std::{fmt, io};
use table_text::faults::NoRow;

// What may be said.
#[derive(Clone, Copy)]
pub enum Said {
    Usage(Command),
    NoWord,
    // These two are of an argument.
    NoCommand(usize),
    NoNumber(usize),
    ManyEntries,
    CannotRead(usize),
    CannotWrite,
    SomeRefused { refused: usize, files: usize },
    OfFile(usize, Objection),
    // What the files of two arguments are together is refused.
    OfFiles(usize, usize, Objection),
}

// What is said of a file.
#[derive(Clone, Copy)]
pub enum Objection {
    TextLong,
    NoRow(NoRow),
    Refused(Refused),
    // A number of a pruning list, and its place there.
    Unlisted {
        place: usize,
        entry: usize,
        unlisted: Unlisted,
    },
}

#[derive(Clone, Copy)]
pub enum Unlisted {
    NoEntry,
    NoInternal,
    NotRising,
}

impl From<io::Error> for Said {
    fn from(_error: io::Error) -> Self {
        Said::CannotWrite
    }
}

impl fmt::Display for Unlisted {
    fn fmt<W: fmt::Write>(&self, f: &mut fmt::Formatter<W>) -> fmt::Result {
        f.write_str(match self {
            Unlisted::NoEntry => "no entry",
            Unlisted::NoInternal => "no internal node",
            Unlisted::NotRising => "not above the one before",
        })
    }
}

impl fmt::Display for Objection {
    fn fmt<W: fmt::Write>(&self, f: &mut fmt::Formatter<W>) -> fmt::Result {
        match *self {
            Objection::TextLong => write!(f, "longer than the text of any slip"),
            Objection::NoRow(no_row) => write!(f, "{no_row}"),
            Objection::Refused(refused) => {
                let number = refused.refusal.number();
                let place = refused.place;
                write!(f, "refused {number} at {place}: {refused}")
            }
            Objection::Unlisted {
                place,
                entry,
                unlisted,
            } => {
                let number = Refusal::BadList.number();
                write!(
                    f,
                    "refused {number} at {place}: number {entry} of the list is {unlisted}"
                )
            }
        }
    }
}

impl Said {
    // The line that says it, with the arguments as they were given.
    fn write(self, rt: &impl Env, page: &mut impl Write) -> io::Result<()> {
        write!(page, "desk: ")?;
        match self {
            Said::Usage(command) => write!(page, "usage: {}", command.usage())?,
            Said::NoWord => write!(page, "usage: desk COMMAND ..; desk help lists the commands")?,
            Said::NoCommand(i) => {
                write!(page, "usage: no command ")?;
                arguments::name(rt, page, i)?;
                write!(page, "; desk help lists them")?;
            }
            Said::NoNumber(i) => {
                write!(page, "usage: ")?;
                arguments::name(rt, page, i)?;
                write!(page, " is no number from 0 to 65535")?;
            }
            Said::ManyEntries => write!(page, "usage: more entries than a slip has")?,
            Said::CannotRead(i) => {
                write!(page, "cannot read ")?;
                arguments::name(rt, page, i)?;
            }
            Said::CannotWrite => write!(page, "cannot write")?,
            Said::SomeRefused { refused, files } => write!(
                page,
                "{refused} of {files} files refused"
            )?,
            Said::OfFile(i, objection) => {
                arguments::name(rt, page, i)?;
                write!(page, ": {objection}")?;
            }
            Said::OfFiles(i, j, objection) => {
                arguments::name(rt, page, i)?;
                write!(page, " and ")?;
                arguments::name(rt, page, j)?;
                write!(page, ": {objection}")?;
            }
        }
        writeln!(page)?;
        page.flush()
    }
}

// Says it. What cannot be written there is not said.
pub fn say(rt: &(impl Env + Complaints), said: Said) {
    let mut page = Page::new(rt.complaints());
    let _ = said.write(rt, &mut page);
}

pub fn help(rt: &impl Print) -> io::Result<()> {
    rt.write_all(
        b"desk check FILE..            whether each file is a slip
desk tree FILE               the tree, with the entry numbers for prune
desk unpack FILE             the table as text
desk pack FILE               that text as a slip
desk prune FILE ENTRY..      the slip with these subtrees pruned
desk join FILE FILE          the slip of what either shows
desk find TYPE FILE..        the value of a type, and the first file that has it
desk calls                   a request a line in, an answer a line out
desk help, desk --version    this text, and the program's version
The file - is standard input.
",
    )
}

pub fn version(rt: &impl Print) -> io::Result<()> {
    rt.write_all(b"desk 1, for slips of edition 1\n")
}
