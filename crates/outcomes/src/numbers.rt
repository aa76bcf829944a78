// A refusal by its name, and where it is.
ghost use Rattle.std.specs.Prelude.{◌≡◌, ◌<◌, IfSome, IfNone};
ghost use Rattle.outcomes.specs.Refusals.{number_of};

#[derive(Clone, Copy, Debug, PartialEq, Eq)]
pub enum Refusal {
    TooLong,
    CutShort,
    OtherEdition,
    NoNodes,
    ChildrenMissing,
    TooHigh,
    SaltBroken,
    NotComposed,
    NotOneTree,
    BadPadding,
    NoRoom,
    BadList,
    RootsDiffer,
    Clashing,
    JoinTooLarge,
    BadTable,
    TitleLong,
    NotUtf8,
    OutsideRepertoire,
    LooseMark,
}

impl Refusal {
    // The number where nothing is refused.
    pub const ACCEPTED: usize = 0;

    // The number that document 01 gives it.
    pub fn number(self) -> usize
        ensures { result ≡ number_of self }
    {
        match self {
            Refusal::TooLong => 1,
            Refusal::CutShort => 2,
            Refusal::OtherEdition => 3,
            Refusal::NoNodes => 4,
            Refusal::ChildrenMissing => 5,
            Refusal::TooHigh => 6,
            Refusal::SaltBroken => 7,
            Refusal::NotComposed => 8,
            Refusal::NotOneTree => 9,
            Refusal::BadPadding => 10,
            Refusal::NoRoom => 11,
            Refusal::BadList => 12,
            Refusal::RootsDiffer => 13,
            Refusal::Clashing => 14,
            Refusal::JoinTooLarge => 15,
            Refusal::BadTable => 16,
            Refusal::TitleLong => 17,
            Refusal::NotUtf8 => 18,
            Refusal::OutsideRepertoire => 19,
            Refusal::LooseMark => 20,
        }
    }
}

impl Refusal {
    // The refusal of a number; 0 is none, and so is one past the last.
    pub fn numbered(number: usize) -> Option<Refusal>
        ensures named { IfSome result (λ r. number_of r ≡ number) }
        ensures none { IfNone result ((0 < number) → 20 < number) }
    {
        match number {
            1 => Some(Refusal::TooLong),
            2 => Some(Refusal::CutShort),
            3 => Some(Refusal::OtherEdition),
            4 => Some(Refusal::NoNodes),
            5 => Some(Refusal::ChildrenMissing),
            6 => Some(Refusal::TooHigh),
            7 => Some(Refusal::SaltBroken),
            8 => Some(Refusal::NotComposed),
            9 => Some(Refusal::NotOneTree),
            10 => Some(Refusal::BadPadding),
            11 => Some(Refusal::NoRoom),
            12 => Some(Refusal::BadList),
            13 => Some(Refusal::RootsDiffer),
            14 => Some(Refusal::Clashing),
            15 => Some(Refusal::JoinTooLarge),
            16 => Some(Refusal::BadTable),
            17 => Some(Refusal::TitleLong),
            18 => Some(Refusal::NotUtf8),
            19 => Some(Refusal::OutsideRepertoire),
            20 => Some(Refusal::LooseMark),
            _ => None,
        }
    }
}

// A refusal and its place.
#[derive(Clone, Copy, Debug, PartialEq, Eq)]
pub struct Refused {
    pub refusal: Refusal,
    pub place: usize,
}

impl Refusal {
    // The refusal at a place.
    pub fn at(self, place: usize) -> Refused
        ensures { result ≡ record { refusal = self; place = place } }
    {
        Refused {
            refusal: self,
            place,
        }
    }
}

// Elsewhere "place 0".
impl From<Refusal> for Refused {
    ghost use Rattle.std.specs.Prelude.{◌≡◌};

    ghost from_gives = { λ r e. e ≡ record { refusal = r; place = 0 } };

    fn from(refusal: Refusal) -> Refused {
        refusal.at(0)
    }
}
