// Why a line is no row.
use std::fmt;

#[derive(Clone, Copy, Debug, PartialEq, Eq)]
pub enum Fault {
    Word,
    Number,
    Missing,
    Odd,
    Upper,
    Digit,
    More,
    Long,
    Rows,
}

impl fmt::Display for Fault {
    fn fmt<W: fmt::Write>(&self, f: &mut fmt::Formatter<W>) -> fmt::Result {
        f.write_str(match self {
            Fault::Word => "a row begins with inner, gone or pair",
            Fault::Number => "no number from 0 to 65535",
            Fault::Missing => "no value, and - is the empty one",
            Fault::Odd => "an odd number of digits",
            Fault::Upper => "upper-case digits",
            Fault::Digit => "a sign that is no hex digit",
            Fault::More => "more than one value",
            Fault::Long => "a value longer than any slip",
            Fault::Rows => "more rows than a slip has",
        })
    }
}

// A line that is no row, counted from 1, and why.
#[derive(Clone, Copy, Debug, PartialEq, Eq)]
pub struct NoRow {
    pub line: usize,
    pub fault: Fault,
}

impl fmt::Display for NoRow {
    fn fmt<W: fmt::Write>(&self, f: &mut fmt::Formatter<W>) -> fmt::Result {
        write!(f, "no row in line {}: {}", self.line, self.fault)
    }
}

// Why the digits of a value stand for no bytes.
pub fn of_digits(digits: &[u8]) -> Fault {
    if digits.is_empty() {
        return Fault::Missing;
    }
    match digits.iter().find(|b| !is_digit(**b)) {
        Some(strange) => of_byte(*strange),
        None if digits.len() % 2 == 0 => Fault::Long,
        None => Fault::Odd,
    }
}

fn is_digit(b: u8) -> bool {
    matches!(b, b'0'..=b'9' | b'a'..=b'f')
}

fn of_byte(b: u8) -> Fault {
    match b {
        b'A'..=b'F' => Fault::Upper,
        b' ' => Fault::More,
        _ => Fault::Digit,
    }
}
