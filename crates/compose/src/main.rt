// Composes titles: one to a line on standard input, one answer to a line on standard output.
//
// `composed`, a space and the composed bytes; or `refused`, the number and the place. With a word as argument the
// composed bytes alone, and refusals in words on standard error. The line feed is no part of a title, nor is a carriage
// return before it, nor a byte order mark at the very start of the input.
#![tactic(auto)]

mod answers;
mod words;

use answers::{Answers, Form};
use pages::{Complaints, Page};
use std::env::{Env, FillError};
use std::io;
use std::io::{Read, Write};
use text_lines::{Line, Lines, ROOM};

const BYTE_ORDER_MARK: &[u8] = b"\xEF\xBB\xBF";

// What ends a run before the input's end.
#[derive(Drop)]
enum Fault {
    Read,
    Write,
}

// A read's error is told as such where it comes; every other one is a write's.
impl From<io::Error> for Fault {
    fn from(_e: io::Error) -> Fault {
        Fault::Write
    }
}

fn main(rt: HostRuntime) {
    let mut area = [0; ROOM];
    let mut page = Page::new(io::writer(&rt));
    let mut complaints = Page::new(rt.complaints());
    let form = form(&rt);
    let ended = run(
        &mut rt.reader(),
        &mut area,
        &mut page,
        &mut complaints,
        form,
    );
    // Behind a failed write nothing more is written.
    if matches!(ended, Err(Fault::Write)) || page.flush().is_err() {
        pages::say(&rt, b"compose", b"cannot write");
    }
    if matches!(ended, Err(Fault::Read)) {
        pages::say(&rt, b"compose", b"cannot read");
    }
}

// Whether the program was given a word.
fn form(rt: &impl Env) -> Form {
    match rt.arg(1, &mut [0; 1]) {
        Err(FillError::NotPresent) => Form::Named,
        _ => Form::Bare,
    }
}

// A proved loop ends: this one where the input does, or after more turns than any run takes. Where no line is whole the
// answers are written out.
fn run(
    source: &mut impl Read,
    area: &mut [u8; ROOM],
    page: &mut impl Write,
    complaints: &mut Page<impl Write>,
    form: Form,
) -> Result<(), Fault> {
    let mut lines = Lines::new();
    let mut answers = Answers::new(form);
    for _ in 0..u64::MAX {
        let text = match lines.next(source, area).map_err(|_| Fault::Read)? {
            Line::Whole(text) | Line::Front(text) => text.strip_suffix(b"\r").unwrap_or(text),
            // The input is a byte order mark alone: there is no title.
            Line::Last(BYTE_ORDER_MARK) if answers.is_first() => break,
            Line::Last(text) => text,
            Line::Awaited => {
                page.flush()?;
                continue;
            }
            Line::End => break,
        };
        let title = title(text, answers.is_first());
        answers.put(page, complaints, title)?;
    }
    Ok(())
}

// The title that stands on a line: on the first one behind the byte order mark.
fn title(text: &[u8], is_first: bool) -> &[u8] {
    if is_first {
        return text.strip_prefix(BYTE_ORDER_MARK).unwrap_or(text);
    }
    text
}
