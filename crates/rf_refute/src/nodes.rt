use rf_text::List;
use smallvec::SmallVec;

/// A node of a refutation: a place of a variable is taken away since the constraint with that number is false with it; the
/// variable is split at its alive places; the constraint with that number is false.
#[derive(Drop)]
pub enum Node {
    Remove { x: u32, v: u16, c: u64 },
    Split { x: u32, vals: SmallVec<u16, 4> },
    Fail { c: u64 },
}

/// Nodes in preorder.
#[derive(Drop)]
pub struct Tree {
    pub nodes: List<Node>,
}

/// What a check tells. Nodes are counted from 1.
#[derive(Clone, Copy, Debug)]
pub enum Verdict {
    Good,
    Bad { node: u64 },
}
