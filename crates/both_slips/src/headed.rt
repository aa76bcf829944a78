// A slip behind its header.
ghost use Rattle.trees.specs.Rules.{max_bytes, max_nodes};
ghost use Rattle.both_slips.specs.Headed.{Headed};

// A slip whose header is taken, and the node count that the header tells.
#[derive(Clone, Copy)]
pub struct HeadedSlip<'a> {
    pub bytes: &'a [u8],
    pub nodes: usize,
    pub ghost headed: { Headed bytes.now nodes max_bytes max_nodes },
}
