use index_tree::{Bytes, Change};

/// What a directory's index becomes: nothing is changed yet.
#[derive(Drop)]
pub struct DirPlan {
    /// The new value of the index root.
    pub root: Bytes,
    /// The changes of index blocks, each of a whole body.
    pub changes: Vec<Change>,
    /// The VCNs of fresh blocks that are in use now.
    pub taken: Vec<u64>,
    /// The VCNs of blocks that are no longer in use.
    pub freed: Vec<u64>,
}
