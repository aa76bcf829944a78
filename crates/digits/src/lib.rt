// What digits spell: numbers in decimal, and bytes in lower-case hex, two digits a byte.
#![tactic(auto)]

ghost use Rattle.std.specs.Prelude.{◌*◌, ◌/◌, ◌≤◌, ◌<◌, ◌≡◌, true, length, take, IfSome};
ghost use Rattle.std.specs.Option.{option_and_then};
ghost use Rattle.digits.specs.Digits.{digit_of, longer_with, number_of, in_cell, is_hex, bytes_of};

// The place of a byte among the digits.
#[tactic(auto, unfolding(crate::specs::Digits::digit_of, crate::specs::Digits::glyphs))]
fn digit(b: u8) -> Option<usize>
    ensures place { result ≡ digit_of b }
    ensures below { IfSome result (λ d. d < 16) }
{
    b"0123456789abcdef".iter().position(|glyph| *glyph == b)
}

// The number that decimal digits are; none where there is no digit, another byte, or a digit behind a number of 2^32 or more.
pub fn decimal(digits: &[u8]) -> Option<usize>
    ensures { result ≡ number_of digits.now }
{
    if digits.is_empty() {
        return None;
    }
    let mut n = 0;
    for b in digits {
        n = longer(n, *b)?;
    }
    Some(n)
}

// A number with one digit more.
fn longer(n: usize, b: u8) -> Option<usize>
    ensures { result ≡ longer_with n b }
{
    let d = digit(b)?;
    if 9 < d || 4294967295 < n {
        return None;
    }
    Some(n * 10 + d)
}

// That number where a cell holds it.
pub fn number_of(word: &[u8]) -> Option<u16>
    ensures { result ≡ option_and_then in_cell (number_of word.now) }
{
    let n = decimal(word)?;
    u16::try_from(n).ok()
}

// Puts the bytes that the digits spell at the start of out; false where they spell none.
pub fn decoded(digits: &[u8], out: &mut [u8]) -> bool
    requires { length digits.now ≤ 2 * length out.old }
    ensures { (result ≡ is_hex digits.now) × (result ≡ true → take (length digits.now / 2) out.new ≡ bytes_of digits.now) }
{
    for i in 0..digits.len() / 2 {
        let Some(high) = digit(digits[2 * i]) else {
            return false;
        };
        let Some(low) = digit(digits[2 * i + 1]) else {
            return false;
        };
        out[i] = (16 * high + low) as u8;
    }
    digits.len() % 2 == 0
}
