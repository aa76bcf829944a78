// Reads a slip from standard input and prints what it discloses, or its refusal.
#![tactic(auto)]

use pages::Page;
use std::io;
use std::io::Write;
use tables::limits::Slip;
use text_lines::reading;

// One byte more than a slip may have: a longer input is refused all the same.
const ROOM: usize = Slip::MAX_BYTES + 1;

fn main(rt: HostRuntime) {
    let mut area = [0u8; ROOM];
    let Ok(n) = reading::read_all(&mut rt.reader(), &mut area) else {
        pages::say(&rt, b"show", b"cannot read");
        return;
    };
    let mut page = Page::new(io::writer(&rt));
    if print(&mut page, &area[..n]).is_err() {
        pages::say(&rt, b"show", b"cannot write");
    }
}

fn print(page: &mut impl Write, slip: &[u8]) -> io::Result<()> {
    show_text::slip(page, slip)?;
    page.flush()
}
