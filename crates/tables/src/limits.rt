// "All these limits bear one name each, as constants of the slip."
ghost use Rattle.std.specs.Prelude.{◌≡◌, [], ◌∷◌};
ghost use Rattle.trees.specs.Rules.{max_type, max_value, max_children, max_height, label_bytes, salt_type, salt_bytes, first_text, last_text, max_nodes, max_bytes};
ghost use Rattle.tables.specs.Limits.{edition, edition_bits, count_bits, child_bits, type_bits, length_bits};

#[derive(Drop)]
pub struct Slip {}

impl Slip {
    pub const MAX_BYTES: usize = 32768;

    pub const MAX_NODES: usize = 1023;

    pub const MAX_TYPE: usize = 1023;

    pub const MAX_VALUE: usize = 511;

    pub const MAX_CHILDREN: usize = 32;

    pub const MAX_HEIGHT: usize = 16;

    pub const LABEL_BYTES: usize = 32;

    pub const SALT_TYPE: usize = 1;

    pub const SALT_BYTES: usize = 32;

    pub const FIRST_TEXT: usize = 2;

    pub const LAST_TEXT: usize = 511;

    pub const EDITION: usize = 1;

    pub const EDITION_BITS: usize = 6;

    pub const COUNT_BITS: usize = 10;

    pub const CHILD_BITS: usize = 5;

    pub const TYPE_BITS: usize = 10;

    pub const LENGTH_BITS: usize = 9;
}

// The definitions have the same numbers under their own names: this ties the two.
pub fn limits() -> [usize; 17]
    ensures { result ≡ max_bytes ∷ max_nodes ∷ max_type ∷ max_value ∷ max_children ∷ max_height ∷ label_bytes ∷ salt_type ∷ salt_bytes ∷ first_text ∷ last_text ∷ edition ∷ edition_bits ∷ count_bits ∷ child_bits ∷ type_bits ∷ length_bits ∷ [] }
{
    [
        Slip::MAX_BYTES,
        Slip::MAX_NODES,
        Slip::MAX_TYPE,
        Slip::MAX_VALUE,
        Slip::MAX_CHILDREN,
        Slip::MAX_HEIGHT,
        Slip::LABEL_BYTES,
        Slip::SALT_TYPE,
        Slip::SALT_BYTES,
        Slip::FIRST_TEXT,
        Slip::LAST_TEXT,
        Slip::EDITION,
        Slip::EDITION_BITS,
        Slip::COUNT_BITS,
        Slip::CHILD_BITS,
        Slip::TYPE_BITS,
        Slip::LENGTH_BITS,
    ]
}
