// Parts of an area of bytes or of cells.
#![tactic(auto)]

ghost use Rattle.std.specs.Prelude.{◌≡◌, ◌==◌, ◌≤◌, ◌<◌, ◌⊎◌, length, slice_range, position, IfSome};
ghost use Rattle.parts.specs.Sixteen.{Sixteen};

// From one place up to another; nothing where those are not in order, or past the area's end.
pub fn part<T>(area: &[T], from: usize, to: usize) -> &[T]
    ensures inside { from ≤ to → to ≤ length area.now → result.now ≡ slice_range area.now from to }
    ensures outside { (to < from) ⊎ (length area.now < to) → length result.now ≡ 0 }
{
    area.get(from..to).unwrap_or(&[])
}

// Where a byte stands first.
pub fn find(text: &[u8], b: u8) -> Option<usize>
    ensures first { result ≡ position (λ x. x == b) text.now }
    ensures within { IfSome result (λ at. at < length text.now) }
{
    text.iter().position(|x| *x == b)
}

// The number in a cell, 0 past the last.
pub fn cell(area: &[u16], i: usize) -> usize
    ensures { result < 65536 }
{
    area.get(i).copied().map_or(0, usize::from)
}

// The k-th number of 16 bits, the more significant byte first; 0 past the last whole one.
pub fn sixteen(area: &[u8], k: usize) -> u16
    ensures { Sixteen area.now k result }
{
    if area.len() / 2 <= k {
        return 0;
    }
    u16::from_be_bytes([area[2 * k], area[2 * k + 1]])
}

// Where a part of n bytes ends that starts at `at`: not behind the area's end.
pub fn end(area: &[u8], at: usize, n: usize) -> usize
    ensures { result ≤ length area.now }
{
    at.saturating_add(n).min(area.len())
}

// Where the value of a row starts in the area that has them end to end.
pub fn start(area: &[u8], lengths: &[u16], row: usize) -> usize
    ensures { result ≤ length area.now }
{
    let mut at = 0;
    for length in lengths.iter().take(row) {
        at = end(area, at, usize::from(*length));
    }
    at
}
