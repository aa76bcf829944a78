// A session: each line of standard input is a request, and answered on standard output. What stands on the page is
// written out before more is read, so that whoever waits for an answer gets it.
use crate::request;
use fields::Fields;
use pages::{Complaints, Page};
use std::io;
use std::io::{Read, Write};
use text_lines::{Line, Lines, ROOM};

// How the reading and the writing of a session ended.
#[derive(Drop)]
struct Ended {
    read: io::Result<()>,
    written: io::Result<()>,
}

pub fn run(rt: &(impl Print + Input + Complaints)) {
    let mut area = [0u8; ROOM];
    let mut bytes = [0u8; fields::BYTES];
    let mut cells = [0u16; fields::CELLS];
    let mut fields = Fields::new(&mut bytes, &mut cells);
    let mut page = Page::new(io::writer(rt));
    let ended = serve(&mut page, &mut rt.reader(), &mut area, &mut fields);
    if ended.written.is_err() {
        pages::say(rt, b"desk", b"cannot write");
    }
    if ended.read.is_err() {
        pages::say(rt, b"desk", b"cannot read");
    }
}

fn serve(
    page: &mut impl Write,
    source: &mut impl Read,
    area: &mut [u8; ROOM],
    fields: &mut Fields<'_>,
) -> Ended {
    let mut lines = Lines::new();
    for _ in 0..u64::MAX {
        let line = match lines.next(source, area) {
            Ok(Line::End) => break,
            Ok(line) => line,
            Err(e) => {
                return Ended {
                    read: Err(e),
                    written: page.flush(),
                };
            }
        };
        if let Err(e) = answer(page, line, fields) {
            return Ended {
                read: Ok(()),
                written: Err(e),
            };
        }
    }
    Ended {
        read: Ok(()),
        written: page.flush(),
    }
}

// Answers a line; where there is none yet, the page is written out.
fn answer(page: &mut impl Write, line: Line<'_>, fields: &mut Fields<'_>) -> io::Result<()> {
    match line {
        Line::Whole(text) | Line::Front(text) | Line::Last(text) => {
            request::answer(page, text, fields)
        }
        Line::Awaited | Line::End => page.flush(),
    }
}
