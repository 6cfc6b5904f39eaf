use disk_model::Change;
use tree_model::Reply;

/// What an operation comes to: what it is answered, and the changes of blocks that it makes, in the
/// order of the blocks, each block once.
#[derive(Debug, Drop)]
pub struct ChangePlan {
    pub reply: Reply,
    pub changes: Vec<Change>,
}
