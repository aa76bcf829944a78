// What of a pair's value is shown: all of it, or what fits into its line with three dots behind it.
ghost use Rattle.std.specs.Prelude.{◌≤◌};

use crate::writing;
use tables::limits::Slip;

// How wide a line is, and how much of it a value has at least.
const WIDTH: usize = 80;

const LEAST: usize = 8;

// How much of a pair's line is left for the value: 16 go to what of the label is shown, the word and the spaces.
pub fn room(row: usize, depth: usize, kind: u16) -> usize
    ensures { 3 ≤ result }
{
    if Slip::MAX_HEIGHT < depth {
        return LEAST;
    }
    WIDTH - 16 - 2 * depth - digits(row) - digits(usize::from(kind))
}

fn digits(n: usize) -> usize
    ensures { result ≤ 4 }
{
    match n {
        0..=9 => 1,
        10..=99 => 2,
        100..=999 => 3,
        _ => 4,
    }
}

// The front of a value that is shown.
pub fn cut(kind: u16, value: &[u8], room: usize) -> &[u8]
    requires { 3 ≤ room }
{
    let whole = fit(kind, value, room);
    if whole.len() == value.len() {
        return whole;
    }
    fit(kind, value, room - 3)
}

// The front of a value that fits: a text takes a place a character, hex two a byte.
fn fit(kind: u16, value: &[u8], room: usize) -> &[u8] {
    if writing::legible(kind, value) {
        return front(value, room);
    }
    value.get(..room / 2).unwrap_or(value)
}

// The first characters of a text, as many as there may be.
fn front(text: &[u8], most: usize) -> &[u8] {
    let mut left = most;
    for (i, b) in text.iter().enumerate() {
        if begins(*b) {
            if left == 0 {
                return &text[..i];
            }
            left -= 1;
        }
    }
    text
}

// Whether a byte of UTF-8 begins a character: those from 128 to 191 go on with one.
fn begins(b: u8) -> bool {
    !matches!(b, 128..=191)
}
