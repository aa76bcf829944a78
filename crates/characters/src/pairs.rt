// The pairs of a letter and a mark that compose within the repertoire.
ghost use Rattle.std.specs.Prelude.{◌≡◌, ◌==◌, find};
ghost use Rattle.std.specs.Option.{option_map};
ghost use Rattle.characters.specs.Clauses.{Joins, RowsOf};

// Letter, mark and composed letter: by mark, then by letter. `tools/tables code` prints the rows.
static PAIRS: [(char, char, char); 53] = [
    ('A', '\u{300}', 'À'),
    ('E', '\u{300}', 'È'),
    ('I', '\u{300}', 'Ì'),
    ('O', '\u{300}', 'Ò'),
    ('U', '\u{300}', 'Ù'),
    ('a', '\u{300}', 'à'),
    ('e', '\u{300}', 'è'),
    ('i', '\u{300}', 'ì'),
    ('o', '\u{300}', 'ò'),
    ('u', '\u{300}', 'ù'),
    ('A', '\u{301}', 'Á'),
    ('E', '\u{301}', 'É'),
    ('I', '\u{301}', 'Í'),
    ('O', '\u{301}', 'Ó'),
    ('U', '\u{301}', 'Ú'),
    ('Y', '\u{301}', 'Ý'),
    ('a', '\u{301}', 'á'),
    ('e', '\u{301}', 'é'),
    ('i', '\u{301}', 'í'),
    ('o', '\u{301}', 'ó'),
    ('u', '\u{301}', 'ú'),
    ('y', '\u{301}', 'ý'),
    ('A', '\u{302}', 'Â'),
    ('E', '\u{302}', 'Ê'),
    ('I', '\u{302}', 'Î'),
    ('O', '\u{302}', 'Ô'),
    ('U', '\u{302}', 'Û'),
    ('a', '\u{302}', 'â'),
    ('e', '\u{302}', 'ê'),
    ('i', '\u{302}', 'î'),
    ('o', '\u{302}', 'ô'),
    ('u', '\u{302}', 'û'),
    ('A', '\u{303}', 'Ã'),
    ('N', '\u{303}', 'Ñ'),
    ('O', '\u{303}', 'Õ'),
    ('a', '\u{303}', 'ã'),
    ('n', '\u{303}', 'ñ'),
    ('o', '\u{303}', 'õ'),
    ('A', '\u{308}', 'Ä'),
    ('E', '\u{308}', 'Ë'),
    ('I', '\u{308}', 'Ï'),
    ('O', '\u{308}', 'Ö'),
    ('U', '\u{308}', 'Ü'),
    ('a', '\u{308}', 'ä'),
    ('e', '\u{308}', 'ë'),
    ('i', '\u{308}', 'ï'),
    ('o', '\u{308}', 'ö'),
    ('u', '\u{308}', 'ü'),
    ('y', '\u{308}', 'ÿ'),
    ('A', '\u{30A}', 'Å'),
    ('a', '\u{30A}', 'å'),
    ('C', '\u{327}', 'Ç'),
    ('c', '\u{327}', 'ç'),
];

// The letter that a letter and a mark compose to. The mark's rows alone are searched, by the letter.
pub fn composite(letter: u32, mark: u32) -> Option<char>
    ensures { Joins letter mark result }
{
    sought(rows_of(mark), letter)
}

// The rows of a mark.
fn rows_of(mark: u32) -> &'static [(char, char, char)]
    ensures { RowsOf mark result.now }
{
    match mark {
        0x300 => &PAIRS[..10],
        0x301 => &PAIRS[10..22],
        0x302 => &PAIRS[22..32],
        0x303 => &PAIRS[32..38],
        0x308 => &PAIRS[38..49],
        0x30A => &PAIRS[49..51],
        0x327 => &PAIRS[51..],
        _ => &[],
    }
}

// What a letter composes to in the rows of one mark.
fn sought(rows: &[(char, char, char)], letter: u32) -> Option<char>
    ensures { result ≡ option_map (λ p. p.2) (find (λ p. p.0 == letter) rows.now) }
{
    rows.iter().find(|p| u32::from(p.0) == letter).map(|p| p.2)
}
