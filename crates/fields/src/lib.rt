// The fields of a line, each after a space: bytes in lower-case hex, and numbers below 65,536 in decimal, one or
// a list with a comma between two. A field of bytes or a list that holds none is `-`.
#![tactic(auto)]

ghost use Rattle.std.specs.Prelude.{◌≡◌, ◌≤◌, ◌<◌, length, take, IfSome};
ghost use Rattle.digits.specs.Digits.{bytes_of};

use digits::number_of;

// The longest line, in bytes.
pub const LINE: usize = text_lines::LINE;

// What the area of bytes holds: the bytes of any line find room, since each takes two digits.
pub const BYTES: usize = LINE / 2;

// What the area of cells holds: the lists of a line have no more numbers together.
pub const CELLS: usize = 200000;

// The most fields that a line has.
pub const FIELDS: usize = 9;

const PLACES: usize = FIELDS + 1;

#[derive(Clone, Copy)]
pub enum Kind {
    Bytes,
    List,
    Number,
}

// How far the two areas are filled.
#[derive(Clone, Copy, Default)]
struct Filled {
    bytes: usize,
    cells: usize,
}

// All fields of a line, decoded into an area of bytes and one of cells. Both are lent, since a struct that holds areas
// so long would be copied where it is made.
#[derive(Drop)]
pub struct Fields<'a> {
    bytes: &'a mut [u8; BYTES],
    cells: &'a mut [u16; CELLS],
    // How far the areas are filled before each field, and behind the last.
    ends: [Filled; PLACES],
}

impl<'a> Fields<'a> {
    pub fn new(bytes: &'a mut [u8; BYTES], cells: &'a mut [u16; CELLS]) -> Self {
        Fields {
            bytes,
            cells,
            ends: [Filled::default(); PLACES],
        }
    }

    // Decodes the fields behind the first word of a line. None where it has others than those of the shape, or more than
    // an area holds, and where line or shape is too long.
    pub fn read(&mut self, line: &[u8], shape: &[Kind]) -> Option<()> {
        if LINE < line.len() || FIELDS < shape.len() {
            return None;
        }
        self.ends = [Filled::default(); PLACES];
        let mut words = line.split(|b| *b == b' ');
        words.next()?;
        for (k, kind) in shape.iter().enumerate() {
            let from = self.ends[k];
            self.ends[k + 1] = self.decode(words.next()?, *kind, from)?;
        }
        if words.next().is_some() {
            return None;
        }
        Some(())
    }

    // Puts a field behind what the areas hold.
    fn decode(&mut self, text: &[u8], kind: Kind, from: Filled) -> Option<Filled> {
        match kind {
            Kind::Bytes => {
                let n = hex(text, self.bytes.get_mut(from.bytes..)?)?;
                Some(Filled {
                    bytes: from.bytes + n,
                    ..from
                })
            }
            Kind::List => {
                let n = list(text, self.cells.get_mut(from.cells..)?)?;
                Some(Filled {
                    cells: from.cells + n,
                    ..from
                })
            }
            Kind::Number => {
                *self.cells.get_mut(from.cells)? = number_of(text)?;
                Some(Filled {
                    cells: from.cells + 1,
                    ..from
                })
            }
        }
    }

    // The bytes of field k.
    pub fn text(&self, k: usize) -> &[u8] {
        parts::part(
            self.bytes,
            self.end(k).bytes,
            self.end(k.saturating_add(1)).bytes,
        )
    }

    // The numbers of field k, a list.
    pub fn column(&self, k: usize) -> &[u16] {
        parts::part(
            self.cells,
            self.end(k).cells,
            self.end(k.saturating_add(1)).cells,
        )
    }

    // Field k, a number, as it stands in its cell.
    pub fn cell(&self, k: usize) -> u16 {
        self.cells.get(self.end(k).cells).copied().unwrap_or(0)
    }

    // Field k, a number.
    pub fn number(&self, k: usize) -> usize
        ensures { result ≤ 65535 }
    {
        usize::from(self.cell(k))
    }

    // How far the areas are filled before field k.
    fn end(&self, k: usize) -> Filled {
        self.ends.get(k).copied().unwrap_or_default()
    }
}

// Puts bytes in hex, or none, at the start of the area, and answers how many.
#[tactic(auto, unfolding(digits::specs::Digits::bytes_of))]
pub fn hex(text: &[u8], area: &mut [u8]) -> Option<usize>
    ensures within { IfSome result (λ n. n ≤ length area.new) }
    ensures bytes { IfSome result (λ n. take n area.new ≡ bytes_of text.now) }
{
    if text == b"-".as_slice() {
        return Some(0);
    }
    let n = text.len() / 2;
    if text.is_empty() || area.len() < text.len() - n {
        return None;
    }
    if digits::decoded(text, area) {
        Some(n)
    } else {
        None
    }
}

// Puts numbers with a comma between two, or none, at the start of the area, and answers how many.
pub fn list(text: &[u8], area: &mut [u16]) -> Option<usize>
    ensures { IfSome result (λ n. n ≤ length area.new) }
{
    if text == b"-".as_slice() {
        return Some(0);
    }
    let mut n = 0;
    for word in text.split(|b| *b == b',') {
        *area.get_mut(n)? = number_of(word)?;
        n += 1;
    }
    Some(n)
}
