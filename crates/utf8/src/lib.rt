// UTF-8: the character at the head of some bytes, and a character put at the head of a buffer.
#![tactic(auto)]

ghost use Rattle.std.specs.Prelude.{◌≡◌, ◌+◌, ◌≤◌, ◌<◌, ◌++◌, length, take, drop, get_or, MatchOption};
ghost use Rattle.nfc.specs.Utf8.{ill, low, high, within, tail, character, front, encode};
ghost use Rattle.utf8.specs.Clauses.{Follows, Reads, At};

// The byte at `i`, or 0 past the end, which follows no first byte.
fn byte(s: &[u8], i: usize) -> u32
    ensures { (result ≡ get_or s.now i 0) × (result < 256) }
{
    s.get(i).copied().map_or(0, u32::from)
}

// Whether `b` may stand second after the first byte `a`, by table 3-7.
#[tactic(auto, unfolding(nfc::specs::Utf8::low, nfc::specs::Utf8::high, nfc::specs::Utf8::within))]
fn is_second(a: u32, b: u32) -> bool
    ensures { Follows b result (within (low a) (high a) b) }
{
    match a {
        0xE0 => matches!(b, 0xA0..=0xBF),
        0xED => matches!(b, 0x80..=0x9F),
        0xF0 => matches!(b, 0x90..=0xBF),
        0xF4 => matches!(b, 0x80..=0x8F),
        _ => matches!(b, 0x80..=0xBF),
    }
}

// Whether `b` may stand behind the second byte.
#[tactic(auto, unfolding(nfc::specs::Utf8::tail, nfc::specs::Utf8::within))]
fn is_tail(b: u32) -> bool
    ensures { Follows b result (tail b) }
{
    matches!(b, 0x80..=0xBF)
}

// The number of the character whose bytes start with `a`, `b`, `c` and `d`.
#[tactic(auto, unfolding(nfc::specs::Utf8::character, nfc::specs::Utf8::two_bytes, nfc::specs::Utf8::three_bytes, nfc::specs::Utf8::four_bytes, nfc::specs::Utf8::within))]
#[inline(always)]
fn code(a: u32, b: u32, c: u32, d: u32) -> Option<u32>
    ensures { Reads (character a b c d) result }
{
    match a {
        0x00..=0x7F => Some(a),
        0xC2..=0xDF if is_tail(b) => Some((a - 0xC0) * 64 + (b - 0x80)),
        0xE0..=0xEF if is_second(a, b) && is_tail(c) => {
            Some((a - 0xE0) * 4096 + (b - 0x80) * 64 + (c - 0x80))
        }
        0xF0..=0xF4 if is_second(a, b) && is_tail(c) && is_tail(d) => {
            Some((a - 0xF0) * 262144 + (b - 0x80) * 4096 + (c - 0x80) * 64 + (d - 0x80))
        }
        _ => None,
    }
}

// The first character of some bytes. ASCII goes first and two bytes next, for speed: a title has no more.
#[inline(always)]
pub fn first(s: &[u8]) -> Option<char>
    ensures { Reads (front s.now) result }
{
    let a = byte(s, 0);
    if a < 0x80 {
        return char::from_u32(a);
    }
    let b = byte(s, 1);
    // Where `a` leads no third byte, none is read.
    if a < 0xE0 {
        let short = code(a, b, 0, 0)?;
        return char::from_u32(short);
    }
    let code = code(a, b, byte(s, 2), byte(s, 3))?;
    char::from_u32(code)
}

// The same at any place: past the end of the text there is none.
pub fn character(s: &[u8], at: usize) -> Option<char>
    ensures { At s.now at result }
{
    first(s.get(at..)?)
}

// Puts a character at the head of `text`, and answers how many bytes it takes. One byte and two go first, for speed: a
// title has no more.
#[tactic(auto, using(crate::proofs::Scalars::same_width, crate::proofs::Scalars::same_encode))]
pub fn put(c: char, text: &mut [u8]) -> usize
    requires { Rattle.nfc.specs.Utf8.width c ≤ length text.old }
    ensures { (result ≡ Rattle.nfc.specs.Utf8.width c) × (text.new ≡ encode c ++ drop result text.old) }
{
    if c.is_ascii() {
        text[0] = c as u8;
        return 1;
    }
    let code = u32::from(c);
    if code < 0x800 {
        text[0] = (0xC0 + code / 64) as u8;
        text[1] = (0x80 + code % 64) as u8;
        return 2;
    }
    let mut room = [0; 4];
    let bytes = c.encode_utf8(&mut room).as_bytes();
    text[..bytes.len()].copy_from_slice(bytes);
    bytes.len()
}
