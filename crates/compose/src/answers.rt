// What is answered to the titles, one after the other.
ghost use Rattle.std.specs.Prelude.{◌≤◌, length, IfOk};

use crate::words::Complaint;
use outcomes::numbers::Refused;
use pages::Page;
use std::io;
use std::io::Write;

#[derive(Clone, Copy)]
pub enum Form {
    // `composed` and the title, or `refused`, the number and the place.
    Named,
    // The title alone, or its refusal in words on standard error.
    Bare,
}

// The bytes of `composed `, and the longest answer: that, a title and a line feed.
const WORD: usize = 9;

const ROOM: usize = WORD + titles::MAX_BYTES + 1;

#[derive(Drop)]
pub struct Answers {
    form: Form,
    // How many titles came.
    number: usize,
    // Where a composed title is put together.
    room: [u8; ROOM],
}

impl Answers {
    pub fn new(form: Form) -> Answers {
        Answers {
            form,
            number: 0,
            room: [0; ROOM],
        }
    }

    // Whether the next title is the first.
    pub fn is_first(&self) -> bool {
        self.number == 0
    }

    pub fn put(
        &mut self,
        page: &mut impl Write,
        complaints: &mut Page<impl Write>,
        title: &[u8],
    ) -> io::Result<()> {
        self.number = self.number.wrapping_add(1);
        match self.form {
            Form::Named => self.named(page, title),
            Form::Bare => self.bare(page, complaints, title),
        }
    }

    fn named(&mut self, page: &mut impl Write, title: &[u8]) -> io::Result<()> {
        match line(b"composed ", title, &mut self.room) {
            Ok(line) => page.write_all(line),
            Err(r) => writeln!(page, "refused {} {}", r.refusal.number(), r.place),
        }
    }

    // The titles before a refused one are written out before its complaint, and what cannot be said is not said.
    fn bare(
        &mut self,
        page: &mut impl Write,
        complaints: &mut Page<impl Write>,
        title: &[u8],
    ) -> io::Result<()> {
        match line(b"", title, &mut self.room) {
            Ok(line) => page.write_all(line),
            Err(refused) => {
                page.flush()?;
                let complaint = Complaint {
                    line: self.number,
                    title,
                    refused,
                };
                if said(complaints, complaint).is_err() {
                    complaints.clear();
                }
                Ok(())
            }
        }
    }
}

fn said(complaints: &mut impl Write, complaint: Complaint<'_>) -> io::Result<()> {
    writeln!(complaints, "{complaint}")?;
    complaints.flush()
}

// A word, the title behind it, composed, and a line feed; or the refusal. A title is composed where its bytes are to
// stand.
fn line<'a>(word: &[u8], title: &[u8], room: &'a mut [u8; ROOM]) -> Result<&'a [u8], Refused>
    requires { length word.now ≤ 9 }
{
    let n = word.len();
    room[..n].copy_from_slice(word);
    let end = n + composed(title, &mut room[n..])?;
    room[end] = b'\n';
    Ok(&room[..=end])
}

// The composed title's length; it stands at the front of `out`. In a function of its own the composer's loop is faster.
#[inline(never)]
fn composed(title: &[u8], out: &mut [u8]) -> Result<usize, Refused>
    ensures { IfOk result (λ n. n ≤ 511) }
{
    titles::compose_into(title, out)
}
