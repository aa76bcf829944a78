// How large the areas are that a call lends to the functions below it: small ones for small slips, and full ones.
ghost use Rattle.std.specs.Prelude.{◌≡◌, ◌≤◌, ◌*◌, ◌+◌, length, take, replicate};
ghost use Rattle.trees.specs.Rules.{max_nodes, max_bytes};

use crate::limits::Slip;
use crate::table::Table;

// A piece of a prelabel begins with its type and its length, two bytes each.
pub const HEAD: usize = 4;

#[derive(Drop)]
pub struct Small {}

impl Small {
    pub const BYTES: usize = 4608;

    pub const NODES: usize = 128;

    pub const WORK: usize = HEAD * Small::NODES + Small::BYTES;

    pub const LABELS: usize = Slip::LABEL_BYTES * Small::NODES;
}

#[derive(Drop)]
pub struct Full {}

impl Full {
    pub const WORK: usize = HEAD * Slip::MAX_NODES + Slip::MAX_BYTES;

    pub const LABELS: usize = Slip::LABEL_BYTES * Slip::MAX_NODES;
}

// The areas of one opened slip: its table, and a label a row.
#[derive(Drop)]
pub struct Areas<const NODES: usize, const BYTES: usize, const LABELS: usize> {
    pub types: [u16; NODES],
    pub counts: [u16; NODES],
    pub lengths: [u16; NODES],
    pub values: [u8; BYTES],
    pub labels: [u8; LABELS],
}

impl<const NODES: usize, const BYTES: usize, const LABELS: usize> Areas<NODES, BYTES, LABELS> {
    // All zeros.
    pub fn new() -> Self
        requires { (NODES ≤ 2 * max_nodes) × (BYTES ≤ 2 * max_bytes + 32 * max_nodes) × (LABELS ≤ 64 * max_nodes) }
        ensures columns { (result.types ≡ replicate NODES 0) × (result.counts ≡ replicate NODES 0) × (result.lengths ≡ replicate NODES 0) }
        ensures bytes { (result.values ≡ replicate BYTES 0) × (result.labels ≡ replicate LABELS 0) }
    {
        Areas {
            types: [0u16; NODES],
            counts: [0u16; NODES],
            lengths: [0u16; NODES],
            values: [0u8; BYTES],
            labels: [0u8; LABELS],
        }
    }

    // The table of the first rows and of the bytes that they take.
    pub fn table(&self, rows: usize, used: usize) -> Table<'_, '_>
        requires { (rows ≤ NODES) × (used ≤ BYTES) }
        ensures types { result.types.now ≡ take rows self.now.types }
        ensures counts { result.counts.now ≡ take rows self.now.counts }
        ensures lengths { result.lengths.now ≡ take rows self.now.lengths }
        ensures values { result.values.now ≡ take used self.now.values }
    {
        Table {
            types: &self.types[..rows],
            counts: &self.counts[..rows],
            lengths: &self.lengths[..rows],
            values: &self.values[..used],
        }
    }
}
