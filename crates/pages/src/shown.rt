// Values as they are printed.
ghost use Rattle.std.specs.Prelude.{◌≡◌, ◌*◌, ◌<◌, ◌≤◌, false, length, take, Some};
ghost use Rattle.std.specs.List.{flat_map};
ghost use Rattle.std.specs.Fmt.{digit_glyph};
ghost use Rattle.std.specs.Str.{IsAscii};
ghost use Rattle.pages.specs.Shown.{octet, hex_text, list_text};

use std::{fmt, str};

// So many bytes are spelt at a time, and then written: a write for each takes longer.
const PART: usize = 32;

// Bytes in lower-case hex, `-` for none.
#[derive(Clone, Copy)]
pub struct Hex<'a>(pub &'a [u8]);

impl fmt::Display for Hex<'_> {
    ghost output = { λ h. Some (hex_text h.0.now) };

    fn fmt<W: fmt::Write>(&self, f: &mut fmt::Formatter<W>) -> fmt::Result {
        if self.0.is_empty() {
            return write!(f, "-");
        }
        let mut digits = [0; 2 * PART];
        for part in self.0.chunks(PART) {
            let n = spell(part, &mut digits);
            let Ok(text) = str::from_utf8(&digits[..n]) else {
                unreachable!();
            };
            f.write_str(text)?;
        }
        Ok(())
    }
}

// Puts two digits a byte at the start of the area, and answers how many.
fn spell(bytes: &[u8], digits: &mut [u8; 2 * PART]) -> usize
    requires { (length bytes.now ≤ 32) × IsAscii digits.old }
    ensures { (result ≡ 2 * length bytes.now) × (take result digits.new ≡ flat_map octet bytes.now) × IsAscii digits.new }
{
    let mut n = 0;
    for byte in bytes {
        digits[n] = glyph(byte / 16);
        digits[n + 1] = glyph(byte % 16);
        n += 2;
    }
    n
}

fn glyph(digit: u8) -> u8
    requires { digit < 16 }
    ensures { (result ≡ digit_glyph false digit) × (result < 128) }
{
    if digit < 10 {
        b'0' + digit
    } else {
        b'a' - 10 + digit
    }
}

// Numbers in decimal with a comma between two, `-` for none.
#[derive(Clone, Copy)]
pub struct List<'a>(pub &'a [u16]);

impl fmt::Display for List<'_> {
    ghost output = { λ l. Some (list_text l.0.now) };

    fn fmt<W: fmt::Write>(&self, f: &mut fmt::Formatter<W>) -> fmt::Result {
        let Some((first, rest)) = self.0.split_first() else {
            return write!(f, "-");
        };
        write!(f, "{first}")?;
        for number in rest {
            write!(f, ",{number}")?;
        }
        Ok(())
    }
}
