// A task: five numbers of 16 bits, the more significant byte first, then its two parts. The parts are a slip and either
// a pruning list, two bytes a name, or a second slip.
use crate::calls::Call;
use std::io::Read;

// The longest part or output that 16 bits announce, and two parts.
pub const ROOM: usize = 65535;

pub const PARTS: usize = 2 * ROOM;

const HEAD: usize = 10;

#[derive(Clone, Copy)]
pub struct Task<'a> {
    pub call: Call,
    pub times: u16,
    pub first: &'a [u8],
    pub second: &'a [u8],
    pub output: u16,
}

impl<'a> Task<'a> {
    // The next task; none at the end of the input. One that is cut short has the bytes of earlier ones behind its own.
    pub fn read(source: &mut impl Read, parts: &'a mut [u8; PARTS]) -> Option<Task<'a>> {
        let mut head = [0; HEAD];
        source.read_exact(&mut head).ok()?;
        let middle = usize::from(parts::sixteen(&head, 2));
        let end = middle + usize::from(parts::sixteen(&head, 3));
        let _ = source.read_exact(&mut parts[..end]);
        Some(Task {
            call: Call::from(parts::sixteen(&head, 0)),
            times: parts::sixteen(&head, 1),
            first: &parts[..middle],
            second: &parts[middle..end],
            output: parts::sixteen(&head, 4),
        })
    }
}
