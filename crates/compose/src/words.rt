// A refusal in words.
use outcomes::numbers::{Refusal, Refused};
use pages::Hex;
use std::fmt;
use titles::MAX_BYTES;

// On which line which title is refused.
#[derive(Drop)]
pub struct Complaint<'a> {
    pub line: usize,
    pub title: &'a [u8],
    pub refused: Refused,
}

impl fmt::Display for Complaint<'_> {
    fn fmt<W: fmt::Write>(&self, f: &mut fmt::Formatter<W>) -> fmt::Result {
        let Refused { refusal, place } = self.refused;
        let number = refusal.number();
        let rest = parts::part(self.title, place, self.title.len());
        write!(
            f,
            "line {}: refused {number} at {place}: {}",
            self.line,
            Reason { refusal, rest }
        )
    }
}

// What is wrong with a title, of which the rest begins with the bytes that are refused.
#[derive(Clone, Copy)]
struct Reason<'a> {
    refusal: Refusal,
    rest: &'a [u8],
}

impl fmt::Display for Reason<'_> {
    fn fmt<W: fmt::Write>(&self, f: &mut fmt::Formatter<W>) -> fmt::Result {
        let c = utf8::character(self.rest, 0).map_or(0, u32::from);
        match self.refusal {
            Refusal::TitleLong => write!(f, "longer than {MAX_BYTES} bytes"),
            Refusal::NotUtf8 => write!(f, "not UTF-8: byte {}", Hex(parts::part(self.rest, 0, 1))),
            Refusal::LooseMark => write!(f, "U+{c:04X} is a mark without a letter that takes it"),
            _ => write!(f, "U+{c:04X} is outside the repertoire"),
        }
    }
}
