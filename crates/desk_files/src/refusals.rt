// What is told of a check: the words of document 01's refusal table, and what stands at the place of a refusal.
use crate::arguments;
use outcomes::numbers::Refusal;
use pages::Hex;
use std::env::Env;
use std::io::Write;
use std::{fmt, io};
use tables::limits::Slip;

// A refusal, the entry or row that it is of, and the entry of the second slip.
#[derive(Clone, Copy, Debug, PartialEq, Eq)]
pub struct Refused {
    pub refusal: Refusal,
    pub place: usize,
    pub second: usize,
}

// Its words, and before them what the place is where the number tells.
impl fmt::Display for Refused {
    fn fmt<W: fmt::Write>(&self, f: &mut fmt::Formatter<W>) -> fmt::Result {
        let place = self.place;
        let second = self.second;
        match self.refusal {
            Refusal::CutShort
            | Refusal::ChildrenMissing
            | Refusal::TooHigh
            | Refusal::SaltBroken
            | Refusal::NotComposed => write!(f, "entry {place}: ")?,
            Refusal::Clashing => write!(f, "entry {place}: entry {second}: ")?,
            Refusal::BadTable => write!(f, "row {place}: ")?,
            _ => (),
        }
        f.write_str(words(self.refusal))
    }
}

fn words(refusal: Refusal) -> &'static str {
    match refusal {
        Refusal::TooLong => "slip over 32,768 bytes",
        Refusal::CutShort => "bits end inside header or entry",
        Refusal::OtherEdition => "edition not 1",
        Refusal::NoNodes => "node count 0",
        Refusal::ChildrenMissing => "more children named than entries waiting",
        Refusal::TooHigh => "height over 16",
        Refusal::SaltBroken => "salt rule broken",
        Refusal::NotComposed => "text value not composed",
        Refusal::NotOneTree => "not one tree with a root of type 0",
        Refusal::BadPadding => "a padding bit set, or bytes left over",
        Refusal::NoRoom => "output too short",
        Refusal::BadList => "pruning list: not rising, out of range, or not an internal node",
        Refusal::RootsDiffer => "root labels differ",
        Refusal::Clashing => "clash",
        Refusal::JoinTooLarge => "join over 1,023 nodes or 32,768 bytes",
        Refusal::BadTable => "table not of the form",
        _ => "",
    }
}

// The line of a file in `desk check`; i is the number of its argument.
pub fn accepted_line(
    rt: &impl Env,
    page: &mut impl Write,
    i: usize,
    length: usize,
    blocks: usize,
    label: &[u8; Slip::LABEL_BYTES],
) -> io::Result<()> {
    arguments::name(rt, page, i)?;
    writeln!(page, " accepted {length} {blocks} {}", Hex(label))
}

pub fn refused_line(
    rt: &impl Env,
    page: &mut impl Write,
    i: usize,
    refused: Refused,
) -> io::Result<()> {
    let number = refused.refusal.number();
    let place = refused.place;
    arguments::name(rt, page, i)?;
    writeln!(page, " refused {number} {place}: {refused}")
}
