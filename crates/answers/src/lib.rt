// What every call on slips answers, and what the answers to two slips come to.
#![tactic(auto)]

ghost use Rattle.std.specs.Prelude.{◌≡◌, ◌==◌};
ghost use Rattle.outcomes.specs.Refusals.{accepted};
ghost use Rattle.answers.specs.Answers as Answers;
ghost use Rattle.answers.specs.Both as Both;
ghost use Rattle.answers.specs.Both.{both_of};

use outcomes::numbers::{Refusal, Refused};
use tables::limits::Slip;

// A refusal has its number and place, and zeros beside them. Laid out as in C, for the static library.
#[repr(C)]
#[derive(Drop)]
pub struct Answer {
    pub number: usize,
    pub place: usize,
    pub second: usize,
    pub side: usize,
    pub length: usize,
    pub blocks: usize,
    pub label: [u8; Slip::LABEL_BYTES],
}

const ZEROS: Answer = Answer {
    number: Refusal::ACCEPTED,
    place: 0,
    second: 0,
    side: 0,
    length: 0,
    blocks: 0,
    label: [0u8; Slip::LABEL_BYTES],
};

impl Answer {
    pub fn is_accepted(&self) -> bool
        ensures { result ≡ (self.now.number == accepted) }
    {
        self.number == Refusal::ACCEPTED
    }
}

// What a call tells of a slip that it accepts.
#[derive(Clone, Copy)]
pub struct Accepted {
    pub length: usize,
    pub blocks: usize,
    pub label: [u8; Slip::LABEL_BYTES],
}

impl From<Accepted> for Answer {
    ghost use Rattle.std.specs.Prelude.{◌≡◌};
    ghost use Rattle.answers.specs.Answers.{taken};

    ghost from_gives = { λ s a. a ≡ taken s.length s.blocks s.label };

    fn from(slip: Accepted) -> Answer {
        let label = slip.label;
        Answer {
            length: slip.length,
            blocks: slip.blocks,
            label,
            ..ZEROS
        }
    }
}

impl From<Refused> for Answer {
    ghost use Rattle.std.specs.Prelude.{◌≡◌};
    ghost use Rattle.answers.specs.Answers.{refusal_answer};

    ghost from_gives = { λ r a. a ≡ refusal_answer r };

    fn from(r: Refused) -> Answer {
        Answer {
            number: r.refusal.number(),
            place: r.place,
            ..ZEROS
        }
    }
}

impl From<Result<Accepted, Refused>> for Answer {
    ghost use Rattle.std.specs.Prelude.{◌≡◌};
    ghost use Rattle.answers.specs.Answers.{answer_of};

    ghost from_gives = { λ r a. a ≡ answer_of r };

    fn from(outcome: Result<Accepted, Refused>) -> Answer {
        match outcome {
            Ok(slip) => Answer::from(slip),
            Err(r) => Answer::from(r),
        }
    }
}

// A clash, by its entry number in each slip.
pub fn clashed(first: usize, second: usize) -> Answer
    ensures { result ≡ Answers.clashed first second }
{
    Answer {
        number: Refusal::Clashing.number(),
        place: first,
        second,
        ..ZEROS
    }
}

// A slip's refusal, and which slip it is.
pub fn sided(side: usize, a: Answer) -> Answer
    ensures { result ≡ Both.sided side a }
{
    Answer { side, ..a }
}

// The first slip's answer where both are accepted and their roots have one label, else the refusal.
pub fn both(a: Answer, b: Answer) -> Answer
    ensures { result ≡ both_of a b }
{
    if !a.is_accepted() {
        return sided(1, a);
    }
    if !b.is_accepted() {
        return sided(2, b);
    }
    if a.label != b.label {
        return Answer::from(Refused::from(Refusal::RootsDiffer));
    }
    a
}
