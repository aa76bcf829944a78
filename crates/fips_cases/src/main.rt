// Reads files of published SHA-256 vectors from standard input, one behind the other, makes each digest, and says how many agree.
#![tactic(auto)]

mod messages;
mod values;
mod vectors;

use std::io;
use std::io::{Read, Write};
use text_lines::{Line, Lines, ROOM};
use vectors::Told;

fn main(rt: HostRuntime) {
    let mut area = [0; ROOM];
    run(&mut io::writer(&rt), &mut rt.reader(), &mut area);
}

// A proved loop ends: this one where the input does, or after more turns than any run takes. Behind a failed write the
// other lines are read all the same.
fn run(out: &mut impl Write, source: &mut impl Read, area: &mut [u8; ROOM]) {
    let mut lines = Lines::new();
    let mut told = Told::default();
    for _ in 0..u64::MAX {
        let _ = match lines.next(source, area) {
            Ok(Line::Whole(text) | Line::Last(text)) => told.line(out, text),
            Ok(Line::Front(_)) => told.too_long(out),
            Ok(Line::Awaited) => Ok(()),
            Ok(Line::End) | Err(_) => break,
        };
    }
    let _ = told.count(out);
}
