// Basic blocks, and the graph that they make.
use crate::step::StepList;
use sparse_model::Seq;
use tag_list::TagList;

/// A basic block: what each path through it passes, and the blocks behind it.
#[derive(Drop)]
pub struct Block {
    pub steps: StepList,
    /// The numbers of its successors, each with a tag that says when it is taken: 0 always, 1 where a
    /// condition is true, 2 where it is false, 3 as a case of a `switch`.
    pub next: TagList,
}

/// Blocks by their numbers.
pub type BlockList = Seq<Block>;

/// A control flow graph. Its paths begin in block 0.
#[derive(Drop)]
pub struct Flow {
    pub blocks: BlockList,
}
