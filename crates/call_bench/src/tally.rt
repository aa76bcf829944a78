// What the calls answered and wrote: how many were accepted and refused, and two sums over every number and byte. The
// second sums the first as it grows, so that the order counts too.
use answers::Answer;
use std::fmt;

#[derive(Default, Drop)]
pub struct Tally {
    accepted: u64,
    refused: u64,
    sum: u64,
    sums: u64,
}

impl Tally {
    pub fn answer(&mut self, a: &Answer) {
        self.bytes(&a.label);
        for n in [a.number, a.place, a.second, a.side, a.length, a.blocks] {
            self.grow(n as u64);
        }
        if a.number == 0 {
            self.accepted = self.accepted.wrapping_add(1);
        } else {
            self.refused = self.refused.wrapping_add(1);
        }
    }

    pub fn bytes(&mut self, part: &[u8]) {
        for b in part {
            self.grow(u64::from(*b));
        }
    }

    fn grow(&mut self, n: u64) {
        self.sum = self.sum.wrapping_add(n);
        self.sums = self.sums.wrapping_add(self.sum);
    }
}

impl fmt::Display for Tally {
    fn fmt<W: fmt::Write>(&self, f: &mut fmt::Formatter<W>) -> fmt::Result {
        write!(
            f,
            "{} {} {} {}",
            self.accepted, self.refused, self.sum, self.sums
        )
    }
}
