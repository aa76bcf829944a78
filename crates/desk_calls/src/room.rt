// The buffers that a request lends: how long one may be, which is every number that a field holds, and what it is filled
// with before the call.
pub const MOST: usize = 65535;

pub const FILL: u8 = 165;

pub const FILL_CELL: u16 = 165;

// The first n of an area, or all of it.
pub fn first<T>(area: &mut [T], n: usize) -> &mut [T] {
    let to = n.min(area.len());
    &mut area[..to]
}
