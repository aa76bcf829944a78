// A file read into an area: its end and a failed read are told apart.
ghost use Rattle.std.specs.Prelude.{◌≤◌, length, IfOk};

use std::io;
use std::io::Read;

// Reads until the source ends or the area is full, and answers how many bytes came.
pub fn read_all(source: &mut impl Read, area: &mut [u8]) -> io::Result<usize>
    ensures { IfOk result (λ n. n ≤ length area.new) }
{
    let mut n = 0;
    // A turn goes on by the bytes that came: no iterator fits.
    while n < area.len() {
        let got = source.read(&mut area[n..])?;
        if got == 0 {
            return Ok(n);
        }
        n += got;
    }
    Ok(n)
}
