// The answer to a request: a line of fields with single spaces.
use answers::Answer;
use pages::Hex;
use std::fmt;

// Number, place, second place, side, length, blocks and label.
#[derive(Clone, Copy)]
pub struct Head<'a>(pub &'a Answer);

impl fmt::Display for Head<'_> {
    fn fmt<W: fmt::Write>(&self, f: &mut fmt::Formatter<W>) -> fmt::Result {
        let a = self.0;
        write!(
            f,
            "{} {} {} {} {} {} {}",
            a.number,
            a.place,
            a.second,
            a.side,
            a.length,
            a.blocks,
            Hex(&a.label)
        )
    }
}
