// What the lines of a file say. A vector of a message is `Len = ` and its bits, `Msg = ` and its bytes, `MD = ` and its digest. One
// of the Monte Carlo test is `COUNT = ` and its number, and `MD = ` and the digest that the last one, or `Seed = `, leads to.
use crate::messages;
use crate::values::{spelt, value};
use std::io;
use std::io::Write;

// A line and what follows its word. What is neither another word nor a message is to be the digest of a vector.
#[derive(Clone, Copy)]
enum Said<'a> {
    Nothing,
    Bits(&'a [u8]),
    Count(&'a [u8]),
    Seed(&'a [u8]),
    Message(&'a [u8]),
    Digest(&'a [u8]),
}

impl<'a> Said<'a> {
    // By the first byte, and the second one of a message. All but a blank line, a comment and a heading belong to a vector.
    fn new(text: &'a [u8]) -> Said<'a> {
        match text {
            [] | [b'#' | b'[', ..] => Said::Nothing,
            [b'L', ..] => Said::Bits(value(text, b"Len = ")),
            [b'C', ..] => Said::Count(value(text, b"COUNT = ")),
            [b'S', ..] => Said::Seed(value(text, b"Seed = ")),
            [_, b's', ..] => Said::Message(value(text, b"Msg = ")),
            _ => Said::Digest(value(text, b"MD = ")),
        }
    }
}

// The lines read; the vectors begun, and how many of them agree; the bits of the message that is awaited; the digest that is; and
// the last one, with which the next turn of the Monte Carlo test begins.
#[derive(Clone, Copy, Default)]
pub struct Told {
    line: usize,
    vectors: usize,
    agree: usize,
    bits: Option<usize>,
    digest: Option<[u8; 32]>,
    last: [u8; 32],
}

impl Told {
    // The text of a line, with or without its carriage return.
    pub fn line(&mut self, out: &mut impl Write, whole: &[u8]) -> io::Result<()> {
        self.line = self.line.wrapping_add(1);
        match Said::new(whole.strip_suffix(b"\r").unwrap_or(whole)) {
            Said::Nothing => {}
            Said::Bits(len) => self.begin(digits::decimal(len), None),
            Said::Count(count) => self.turn(count),
            Said::Seed(seed) => self.seed(seed),
            Said::Message(b"") => self.judge(out, b"")?,
            Said::Message(digits) => self.hash(digits),
            Said::Digest(md) => self.judge(out, md)?,
        }
        Ok(())
    }

    // A line of which only the front was read.
    pub fn too_long(&mut self, out: &mut impl Write) -> io::Result<()> {
        self.line = self.line.wrapping_add(1);
        writeln!(out, "too long at line {}", self.line)
    }

    // A vector begins.
    fn begin(&mut self, bits: Option<usize>, digest: Option<[u8; 32]>) {
        self.vectors = self.vectors.wrapping_add(1);
        self.bits = bits;
        self.digest = digest;
    }

    fn turn(&mut self, count: &[u8]) {
        self.last = messages::turned(self.last);
        self.begin(None, (!count.is_empty()).then_some(self.last));
    }

    // Of digits that spell no label the front that spells bytes counts.
    fn seed(&mut self, seed: &[u8]) {
        self.bits = None;
        self.digest = None;
        self.last = [0; 32];
        if seed.len() == 64 {
            let _ = digits::decoded(seed, &mut self.last);
        }
    }

    fn hash(&mut self, digits: &[u8]) {
        let digits = messages::shown(self.bits, digits);
        let digest = messages::hashed(digits);
        self.last = digest.unwrap_or([0; 32]);
        self.digest = digest.filter(|_| messages::whole(self.bits, digits.len()));
        self.bits = None;
    }

    // A digest: the vector agrees where one was made and is the same; where not, a line says so.
    fn judge(&mut self, out: &mut impl Write, md: &[u8]) -> io::Result<()> {
        self.bits = None;
        match self.digest.take() {
            None => writeln!(out, "nothing to compare at line {}", self.line),
            digest if digest == spelt(md) => {
                self.agree = self.agree.wrapping_add(1);
                Ok(())
            }
            Some(_) => writeln!(out, "differs at line {}", self.line),
        }
    }

    // How many vectors there were, and how many agree.
    pub fn count(&self, out: &mut impl Write) -> io::Result<()> {
        writeln!(out, "{} vectors, {} agree", self.vectors, self.agree)
    }
}
