// What the composer answers.
ghost use Rattle.std.specs.Prelude.{◌≡◌};
ghost use Rattle.titles.specs.Scan.{answer_of};

use outcomes::numbers::{Refusal, Refused};

// The composer's answer: a refusal has its number and place and length 0, an acceptance number and
// place 0 and the length written. Laid out as in C, for the static library.
#[repr(C)]
#[derive(Drop)]
pub struct Composed {
    pub number: usize,
    pub place: usize,
    pub length: usize,
}

impl From<Result<usize, Refused>> for Composed {
    ghost from_gives = { λ r a. a ≡ answer_of r };

    fn from(written: Result<usize, Refused>) -> Composed {
        match written {
            Ok(length) => Composed {
                number: Refusal::ACCEPTED,
                place: 0,
                length,
            },
            Err(r) => Composed {
                number: r.refusal.number(),
                place: r.place,
                length: 0,
            },
        }
    }
}
