// A page of text before a writer: what is written stands on the page, and a full page is written out.
ghost use Rattle.std.specs.Prelude.{◌+◌, ◌≤◌, ◌≡◌, ◌++◌, take, length, None, IfOk, OnOk};
ghost use Rattle.std.specs.Io.{WritesAtMost};
ghost use Rattle.std.specs.Io.KnownBytes.{Appends, Keeps, WriteAppends};
ghost use Rattle.pages.specs.Held.{page_holds};

use std::io;
use std::io::Write;

// More than `show` prints of any slip.
pub const BYTES: usize = 98304;

#[derive(Drop)]
pub struct Page<W> {
    to: W,
    text: [u8; BYTES],
    // How many bytes stand on the page.
    at: usize,
    ghost fits: { at ≤ 98304 },
}

impl<W: Write> Page<W> {
    pub fn new(to: W) -> Self {
        Page {
            to,
            text: [0; BYTES],
            at: 0,
        }
    }

    // Forgets what stands on the page: it is not written out.
    pub fn clear(&mut self)
        ensures { (self.new.at ≡ 0) × (self.new.to ≡ self.old.to) }
    {
        self.at = 0;
    }
}

// Where the page cannot be written out it stays as it stands, and the error is handed on.
impl<W: Write> Write for Page<W> {
    fn write(&mut self, bytes: &[u8]) -> io::Result<usize>
        ensures bound { WritesAtMost result bytes.now }
        ensures bytes { WriteAppends None None result bytes.now }
        ensures appends { IfOk result (λ n. Appends (page_holds (W.contents self.old.to) self.old.text self.old.at) (page_holds (W.contents self.new.to) self.new.text self.new.at) (take n bytes.now)) }
    {
        if self.at == BYTES {
            self.flush()?;
        }
        let n = put(&mut self.text, self.at, bytes);
        self.at += n;
        Ok(n)
    }

    fn flush(&mut self) -> io::Result<()>
        ensures bytes { Keeps None None }
        ensures empty { OnOk result (self.new.at ≡ 0) }
        ensures keeps { OnOk result (Keeps (page_holds (W.contents self.old.to) self.old.text self.old.at) (W.contents self.new.to)) }
    {
        self.to.write_all(&self.text[..self.at])?;
        self.clear();
        self.to.flush()
    }
}

// Puts as many of the bytes behind the first `at` as find room, and answers how many.
fn put(text: &mut [u8; BYTES], at: usize, bytes: &[u8]) -> usize
    requires { at ≤ 98304 }
    ensures room { at + result ≤ 98304 }
    ensures bound { result ≤ length bytes.now }
    ensures appends { take (at + result) text.new ≡ take at text.old ++ take result bytes.now }
{
    let n = bytes.len().min(BYTES - at);
    text[at..at + n].copy_from_slice(&bytes[..n]);
    n
}
