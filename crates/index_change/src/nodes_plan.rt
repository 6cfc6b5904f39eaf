use index_plan::Write;
use record_model::EntryList;

/// What the nodes of a directory's index become, before a block is looked up for any of them: so a
/// caller knows how many blocks a plan takes while the allocation may still grow.
#[derive(Drop)]
pub struct NodesPlan {
    /// The root's new entries.
    pub root: EntryList,
    /// The nodes that are written.
    pub writes: Vec<Write>,
    /// The VCNs that are taken: the first so many of the fresh ones.
    pub taken: Vec<u64>,
}
