// What programs write: a page before a writer, values as they are printed, and a line on standard error. A write that
// failed is an error that every function hands on: behind it nothing more is written.
#![tactic(auto)]

ghost use Rattle.std.specs.Prelude.{◌≡◌, map, OnOk};
ghost use Rattle.std.specs.Io.KnownBytes.{Appends};
ghost use Rattle.pages.specs.Shown.{plain};

mod page;
mod shown;

pub use page::{BYTES, Page};
pub use shown::{Hex, List};
use std::io;
use std::io::{Stderr, Write};

// Standard error, for bytes that need not be text.
pub trait Complaints {
    type To: Write + Drop;

    fn complaints(&self) -> Self::To;
}

impl Complaints for HostRuntime {
    type To = Stderr;

    fn complaints(&self) -> Stderr {
        self.stderr()
    }
}

// A line on standard error: who says it, and what. What cannot be written there is not said.
pub fn say(rt: &impl Complaints, program: &[u8], words: &[u8]) {
    let mut page = Page::new(rt.complaints());
    let _ = said(&mut page, program, words);
}

fn said(page: &mut impl Write, program: &[u8], words: &[u8]) -> io::Result<()> {
    name(page, program)?;
    page.write_all(b": ")?;
    name(page, words)?;
    page.write_all(b"\n")?;
    page.flush()
}

// A name as it was given, but for `?` in the place of each control byte: it stays on its line.
pub fn name<W: Write>(page: &mut W, text: &[u8]) -> io::Result<()>
    ensures { OnOk result (Appends (W.contents page.old) (W.contents page.new) (map plain text.now)) }
{
    for &byte in text {
        page.write_all(&[plain_byte(byte)])?;
    }
    Ok(())
}

fn plain_byte(b: u8) -> u8
    ensures { result ≡ plain b }
{
    if b < 32 || b == 127 { b'?' } else { b }
}
