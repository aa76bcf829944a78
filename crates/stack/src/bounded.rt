// The stack for a table's rows: no more nodes and bytes than a table wants. That is a fact of its type, so growing it does not ask for it.
ghost use Rattle.std.specs.Prelude.{◌≡◌, [], ◌*◌, ◌≤◌};
ghost use Rattle.trees.specs.Rules.{max_nodes, max_bytes};
ghost use Rattle.tables.specs.Tables.{entry_of};
ghost use Rattle.sha256.specs.Sha256 as Sha256;
ghost use Rattle.stack.specs.Areas.{GrowFits, grown, noted};

use crate::Stack;
use std::marker::Model;

#[derive(Drop)]
pub struct Bounded<const NODES: usize, const WORK: usize> {
    stack: Stack<NODES, WORK>,
}

// Clauses see the nodes that wait, and the blocks.
impl<const NODES: usize, const WORK: usize> Model for Bounded<NODES, WORK> {
    ghost use Rattle.std.specs.Prelude.{◌*◌, ◌≤◌};
    ghost use Rattle.trees.specs.Rules.{max_nodes, max_bytes};
    ghost use Rattle.stack.specs.Areas.{Held};

    ghost Value = { Held };

    ghost view = { λ s. s.stack.held };

    ghost invariant = { λ s. (NODES ≤ max_nodes) × (WORK ≤ 2 * max_bytes) };
}

impl<const NODES: usize, const WORK: usize> Bounded<NODES, WORK> {
    pub fn new() -> Self
        requires { (NODES ≤ max_nodes) × (WORK ≤ 2 * max_bytes) }
        ensures { result ≡ record { tags = []; blocks = 0 } }
    {
        Bounded {
            stack: Stack::new(),
        }
    }

    // The stack itself, to be read.
    pub fn stack(&self) -> &Stack<NODES, WORK>
        ensures { result.now.held ≡ self.now }
    {
        &self.stack
    }

    pub fn grow(&mut self, kind: usize, count: usize, value: &[u8], i: usize, labels: &mut [u8])
        requires { GrowFits NODES WORK self.old (entry_of kind count value.now) i labels.old }
        ensures stack { self.new ≡ grown Sha256.label self.old (entry_of kind count value.now) }
        ensures labels { labels.new ≡ noted Sha256.label self.old.tags (entry_of kind count value.now) i labels.old }
    {
        self.stack.grow(kind, count, value, i, labels);
    }
}
