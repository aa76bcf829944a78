// The stack of waiting nodes: in one area their pieces end to end, in three columns their types, heights and label lengths.
#![tactic(auto)]

pub mod bounded;

ghost use Rattle.std.specs.Prelude.{◌≡◌, [], ◌∷◌, ◌++◌, ◌+◌, ◌^◌, ◌<◌, ◌≤◌, length};
ghost use Rattle.trees.specs.Rows.{node};
ghost use Rattle.tables.specs.Tables.{entry_of};
ghost use Rattle.sha256.specs.Sha256 as Sha256;
ghost use Rattle.faults.specs.Waiting.{StackColumns};
ghost use Rattle.stack.specs.Areas.{PushAsks, ParentGives, GrowAsks, grown, noted, RootWhole, root_of};

use faults::waiting::Waiting;
use sha256::padding;
use std::marker::Model;
use tables::areas::HEAD;
use tables::form;
use tables::limits::Slip;

// In `work` the next piece goes to `top`; `blocks` are those compressed so far.
#[derive(Clone, Copy)]
pub struct Stack<const NODES: usize, const WORK: usize> {
    kinds: [u16; NODES],
    heights: [u16; NODES],
    sizes: [u16; NODES],
    work: [u8; WORK],
    depth: usize,
    top: usize,
    blocks: usize,
}

// Clauses speak of the nodes that wait, and the blocks. The areas are in view with them, without which no stack could be copied.
impl<const NODES: usize, const WORK: usize> Model for Stack<NODES, WORK> {
    ghost use Rattle.stack.specs.Areas.{Stacked, stacked, Waits};

    ghost Value = { Stacked };

    ghost view = { λ s. stacked s.depth s.top s.blocks s.kinds s.heights s.sizes s.work };

    ghost invariant = { λ s. Waits s.depth s.top s.kinds s.heights s.sizes s.work };

    ghost inverse = { λ v. record { kinds = v.kinds; heights = v.heights; sizes = v.sizes; work = v.work; depth = v.depth; top = v.top; blocks = v.held.blocks } };
}

// What the last `count` nodes give their parent: its height, the length of its prelabel and its label.
#[derive(Clone, Copy)]
struct Parent {
    height: usize,
    long: usize,
    label: [u8; Slip::LABEL_BYTES],
}

impl<const NODES: usize, const WORK: usize> Stack<NODES, WORK> {
    pub fn new() -> Self
        ensures { result.held ≡ record { tags = []; blocks = 0 } }
    {
        Stack {
            kinds: [0; NODES],
            heights: [0; NODES],
            sizes: [0; NODES],
            work: [0; WORK],
            depth: 0,
            top: 0,
            blocks: 0,
        }
    }

    pub fn blocks(&self) -> usize
        ensures { result ≡ self.now.held.blocks }
    {
        self.blocks
    }

    pub fn waiting(&self) -> Waiting<'_>
        ensures { StackColumns self.now.held.tags result.kinds.now result.heights.now result.sizes.now }
    {
        Waiting {
            kinds: &self.kinds[..self.depth],
            heights: &self.heights[..self.depth],
            sizes: &self.sizes[..self.depth],
        }
    }

    // The label of a root that waits alone: it stands behind the head of the only piece.
    pub fn root(&self) -> Option<[u8; Slip::LABEL_BYTES]>
        requires { RootWhole self.now.held.tags }
        ensures { result ≡ root_of self.now.held.tags }
    {
        if self.depth != 1 || self.kinds[0] != 0 {
            return None;
        }
        let piece = &self.work[..self.top];
        let mut label = [0; Slip::LABEL_BYTES];
        label.copy_from_slice(&piece[HEAD..]);
        Some(label)
    }

    // One node more: its piece goes behind the pieces, its cells at the columns' ends.
    fn push(&mut self, kind: usize, height: usize, text: &[u8])
        requires { PushAsks NODES WORK self.old.held kind height text.now }
        ensures { self.new.held ≡ record { tags = self.old.held.tags ++ (record { kind = kind; height = height; text = text.now } ∷ []); blocks = self.old.held.blocks } }
    {
        let depth = self.depth;
        self.kinds[depth] = kind as u16;
        self.heights[depth] = height as u16;
        self.sizes[depth] = text.len() as u16;
        self.top = pieces::put(kind, text, self.top, &mut self.work);
        self.depth = depth + 1;
    }

    // Their prelabel stands as it is hashed, at the end of the area.
    fn parent_of(&self, count: usize) -> Parent
        requires { (count ≤ length self.now.held.tags) × (count < 2 ^ 10) × (WORK < 2 ^ 61) }
        ensures { ParentGives self.now.held.tags count result }
    {
        let waiting = self.waiting();
        let base = self.depth - count;
        let height = faults::highest(&waiting.heights[base..]) + 1;
        let long = form::sum(&waiting.sizes[base..]) + HEAD * count;
        let pieces = &self.work[..self.top];
        Parent {
            height,
            long,
            label: labels::label(&pieces[self.top - long..]),
        }
    }

    // The hash step: the last `count` nodes give way to their parent, whose label is noted at row i.
    fn hash(&mut self, count: usize, i: usize, labels: &mut [u8])
        requires { GrowAsks NODES WORK self.old.held (node count) i labels.old }
        ensures stack { self.new.held ≡ grown Sha256.label self.old.held (node count) }
        ensures labels { labels.new ≡ noted Sha256.label self.old.held.tags (node count) i labels.old }
    {
        let parent = self.parent_of(count);
        let at = Slip::LABEL_BYTES * i;
        labels[at..at + Slip::LABEL_BYTES].copy_from_slice(&parent.label);
        self.depth -= count;
        self.top -= parent.long;
        self.blocks += padding::blocks(parent.long);
        self.push(0, parent.height, &parent.label);
    }

    // The stack after a row's entry that meets no refusal.
    pub fn grow(&mut self, kind: usize, count: usize, value: &[u8], i: usize, labels: &mut [u8])
        requires { GrowAsks NODES WORK self.old.held (entry_of kind count value.now) i labels.old }
        ensures stack { self.new.held ≡ grown Sha256.label self.old.held (entry_of kind count value.now) }
        ensures labels { labels.new ≡ noted Sha256.label self.old.held.tags (entry_of kind count value.now) i labels.old }
    {
        if count == 0 {
            self.push(kind, 1, value);
        } else {
            self.hash(count, i, labels);
        }
    }
}
