use block_view::{Block, Bytes};

/// A block that a plan touches, with its old and its present body.
#[derive(Debug, Drop)]
pub struct Touched {
    pub block: Block,
    /// What its body was at first.
    pub old: Bytes,
    /// Whether it was torn then.
    pub torn: bool,
    /// Whether it was fresh then: no stream's, or wholly past its stream's initialised size.
    pub fresh: bool,
    /// What its body is now.
    pub new: Bytes,
}
