// How large the areas are for the tables of two slips: small ones for small slips, and full ones.
use tables::areas::Small;
use tables::limits::Slip;

#[derive(Drop)]
pub struct SmallPair {}

impl SmallPair {
    pub const ROWS: usize = 2 * Small::NODES;

    pub const BYTES: usize = 2 * Small::BYTES;

    pub const LABELS: usize = Slip::LABEL_BYTES * SmallPair::ROWS;
}

#[derive(Drop)]
pub struct FullPair {}

impl FullPair {
    pub const ROWS: usize = 2 * Slip::MAX_NODES;

    pub const BYTES: usize = 2 * Slip::MAX_BYTES;

    pub const LABELS: usize = Slip::LABEL_BYTES * FullPair::ROWS;
}
