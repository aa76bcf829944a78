// One pass over a title: each cluster is tested and composed.
ghost use Rattle.std.specs.Prelude.{◌≡◌, ◌≤◌, length, drop};
ghost use Rattle.nfc.specs.Utf8.{front};
ghost use Rattle.characters.specs.Clauses.{Joins};
ghost use Rattle.titles.specs.Scan.{Scanned, StartsAt};

use characters::{pairs, repertoire};
use outcomes::numbers::{Refusal, Refused};

// The character at `at`, if a cluster starts with it.
#[tactic(auto, unfolding(crate::specs::Compose::fault, nfc::specs::Repertoire::plain, nfc::specs::Utf8::within))]
#[inline(always)]
pub fn start_at(title: &[u8], at: usize) -> Result<char, Refused>
    requires { at ≤ length title.now }
    ensures { StartsAt at (front (drop at title.now)) result }
{
    let refusal = match utf8::first(&title[at..]) {
        Some(c) if repertoire::is_plain(u32::from(c)) => return Ok(c),
        Some(c) if repertoire::is_mark(u32::from(c)) => Refusal::LooseMark,
        Some(_) => Refusal::OutsideRepertoire,
        None => Refusal::NotUtf8,
    };
    Err(refusal.at(at))
}

// The letter that `letter` makes with a mark at `at`. Every mark's first byte is CC.
fn joined_at(title: &[u8], at: usize, letter: char) -> Option<char>
    ensures { Joins letter (front (drop at title.now)) result }
{
    if title.get(at) != Some(&0xCC) {
        return None;
    }
    pairs::composite(u32::from(letter), u32::from(utf8::first(&title[at..])?))
}

// Composes a title into `room`, up to the first bad character, and answers how many bytes it makes.
pub fn scan(title: &[u8], room: &mut [u8]) -> Result<usize, Refused>
    requires { length title.now ≤ length room.old }
    ensures { Scanned title.now result room.new }
{
    let mut at = 0;
    let mut n = 0;
    // A turn goes on by the bytes of a cluster: no iterator fits.
    while at < title.len() {
        let letter = start_at(title, at)?;
        let next = at + letter.len_utf8();
        let (whole, end) = match joined_at(title, next, letter) {
            Some(joined) => (joined, next + 2),
            None => (letter, next),
        };
        n += utf8::put(whole, &mut room[n..]);
        at = end;
    }
    Ok(n)
}
