// The calls that a request may name, and the fields that each asks for.
use fields::Kind;
use fields::Kind::{Bytes, List, Number};

#[derive(Clone, Copy)]
pub enum Call {
    Check,
    Pack,
    Unpack,
    Prune,
    Join,
    Find,
    Compose,
    Show,
}

impl Call {
    // The call that the first word of a line names.
    pub fn named(line: &[u8]) -> Option<Call> {
        match line.split(|b| *b == b' ').next()? {
            b"check" => Some(Call::Check),
            b"pack" => Some(Call::Pack),
            b"unpack" => Some(Call::Unpack),
            b"prune" => Some(Call::Prune),
            b"join" => Some(Call::Join),
            b"find" => Some(Call::Find),
            b"compose" => Some(Call::Compose),
            b"show" => Some(Call::Show),
            _ => None,
        }
    }

    pub fn shape(self) -> &'static [Kind] {
        match self {
            Call::Check | Call::Show => &[Bytes],
            Call::Pack => &[List, List, List, Bytes, Number],
            Call::Unpack => &[Bytes, Number, Number, Number, Number],
            Call::Prune => &[Bytes, List, Number],
            Call::Join => &[Bytes, Bytes, Number],
            Call::Find => &[Number, List, List, List, Bytes, List, List, List, Bytes],
            Call::Compose => &[Bytes, Number],
        }
    }
}
