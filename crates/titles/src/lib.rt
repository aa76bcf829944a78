// Titles composed to NFC within the repertoire of document 01, and the test for text values in slips.
#![tactic(auto)]

mod composed;
mod scan;

ghost use Rattle.std.specs.Prelude.{◌≡◌};
ghost use Rattle.outcomes.specs.Outcome.{Leaves};
ghost use Rattle.titles.specs.Compose.{compose_of, composed_text};
ghost use Rattle.titles.specs.Scan.{answer_of};

pub use composed::Composed;
use outcomes::numbers::{Refusal, Refused};

// The limit on a title as given.
pub const MAX_BYTES: usize = 511;

// Composes `title` into `out`.
pub fn compose(title: &[u8], out: &mut [u8]) -> Composed
    ensures { Leaves (compose_of title.now out.old) result out.new }
{
    Composed::from(compose_into(title, out))
}

// The same, as the length written. The text is made in a local buffer first: a refusal writes nothing.
pub fn compose_into(title: &[u8], out: &mut [u8]) -> Result<usize, Refused>
    ensures { Leaves (compose_of title.now out.old) (answer_of result) out.new }
{
    if MAX_BYTES < title.len() {
        return Err(Refusal::TitleLong.at(0));
    }
    let mut text = [0u8; MAX_BYTES];
    let n = scan::scan(title, &mut text)?;
    if out.len() < n {
        return Err(Refusal::NoRoom.at(0));
    }
    out[..n].copy_from_slice(&text[..n]);
    Ok(n)
}

// Whether a text value of a slip is composed: well-formed, in the repertoire, no mark.
pub fn composed_text(value: &[u8]) -> bool
    ensures { result ≡ composed_text value.now }
{
    let mut at = 0;
    // A turn goes on by the bytes of a character: no iterator fits.
    while at < value.len() {
        let Ok(c) = scan::start_at(value, at) else {
            return false;
        };
        at += c.len_utf8();
    }
    true
}
