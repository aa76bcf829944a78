// The repertoire of titles.
ghost use Rattle.std.specs.Prelude.{◌≡◌};
ghost use Rattle.nfc.specs.Repertoire.{plain, is_mark};

// In the repertoire, and no mark.
#[tactic(auto, unfolding(nfc::specs::Repertoire::plain, nfc::specs::Utf8::within))]
pub fn is_plain(c: u32) -> bool
    ensures { result ≡ plain c }
{
    matches!(c, 0x20..=0x7E | 0xA0..=0xFF)
}

const MARKS: [u32; 7] = [0x300, 0x301, 0x302, 0x303, 0x308, 0x30A, 0x327];

#[tactic(auto, unfolding(nfc::specs::Repertoire::is_mark, nfc::specs::Repertoire::member, nfc::specs::Repertoire::marks))]
pub fn is_mark(c: u32) -> bool
    ensures { result ≡ is_mark c }
{
    MARKS.contains(&c)
}
