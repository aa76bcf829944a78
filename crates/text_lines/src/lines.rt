// The lines of an input, asked for one after the other. What was read stands in an area that the caller lends to each
// call. It is no field of `Lines`: a part of a field behind two `&mut`s that is handed out gets no proof.
ghost use Rattle.std.specs.Prelude.{◌≤◌, ◌<◌};
ghost use Rattle.text_lines.specs.Input.{Stands, room};

use std::io;
use std::io::Read;

// The longest line that is handed out whole, in bytes: more than a request takes with two tables of 1,023 rows of 511
// bytes.
pub const LINE: usize = 2200000;

// A line that fills the area is handed out as far as it goes there, and the rest of it is passed over.
pub const ROOM: usize = LINE + 1;

#[derive(Clone, Copy)]
pub enum Line<'a> {
    // Without the line feed that ends it.
    Whole(&'a [u8]),
    // The front of a line that the area does not hold.
    Front(&'a [u8]),
    // No line feed comes behind it.
    Last(&'a [u8]),
    // None is whole among what was read.
    Awaited,
    End,
}

// Where a reader of lines stands in its area: where the next line starts, how far the area was searched, and how far it
// is filled.
#[derive(Clone, Copy)]
pub struct Lines {
    from: usize,
    seen: usize,
    held: usize,
    // Whether the rest of a line is passed over, and whether the input ended: two things that go by themselves, and no
    // plainer as an enum of four states.
    skip: bool,
    over: bool,
    ghost stands: { Stands from seen held },
}

impl Lines {
    pub fn new() -> Self {
        Lines {
            from: 0,
            seen: 0,
            held: 0,
            skip: false,
            over: false,
        }
    }

    // The next line. Where none is whole among what was read, what follows is read for the call after this one: whoever
    // waits for answers gets them in between. Behind a failed read comes the end.
    pub fn next<'a>(
        &mut self,
        source: &mut impl Read,
        area: &'a mut [u8; ROOM],
    ) -> io::Result<Line<'a>> {
        if self.over {
            return Ok(Line::End);
        }
        if self.seen < self.held {
            return Ok(self.cut(area));
        }
        let rest = moved(area, self.from, self.held);
        if rest == ROOM {
            return Ok(self.full(area));
        }
        self.read(source, area, rest)
    }

    // The line that starts at `from`, if its line feed stands behind what was searched.
    fn cut<'a>(&mut self, area: &'a [u8; ROOM]) -> Line<'a> {
        let Some(n) = parts::find(&area[self.seen..self.held], b'\n') else {
            self.seen = self.held;
            if self.skip {
                self.from = self.held;
            }
            return Line::Awaited;
        };
        let from = self.from;
        let to = self.seen + n;
        self.from = to + 1;
        self.seen = to + 1;
        if self.skip {
            self.skip = false;
            return Line::Awaited;
        }
        Line::Whole(&area[from..to])
    }

    // The front of a line that fills the area.
    fn full<'a>(&mut self, area: &'a [u8; ROOM]) -> Line<'a> {
        self.from = ROOM;
        self.seen = ROOM;
        self.held = ROOM;
        self.skip = true;
        Line::Front(area)
    }

    // Reads behind the front of a line. At the end of the input that front is a line too.
    fn read<'a>(
        &mut self,
        source: &mut impl Read,
        area: &'a mut [u8; ROOM],
        rest: usize,
    ) -> io::Result<Line<'a>>
        requires { rest < room }
    {
        self.over = true;
        let got = source.read(&mut area[rest..])?;
        if 0 < got {
            self.over = false;
            self.from = 0;
            self.seen = rest;
            self.held = rest + got;
            return Ok(Line::Awaited);
        }
        let last = &*area;
        if rest == 0 {
            return Ok(Line::End);
        }
        Ok(Line::Last(&last[..rest]))
    }
}

// Moves what stands from `from` up to `held` to the front, and answers how many bytes that is.
fn moved(area: &mut [u8; ROOM], from: usize, held: usize) -> usize
    requires { (from ≤ held) × (held ≤ room) }
    ensures { result ≤ room }
{
    // The front of a line that comes in pieces stands there already.
    if 0 < from {
        area.copy_within(from..held, 0);
    }
    held - from
}
