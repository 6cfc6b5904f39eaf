use crate::trail::Trail;

/// Where a key was found: the place in a node that holds it or leads down to it, and the trail
/// below that node.
#[derive(Debug, Drop)]
pub struct Place {
    pub at: usize,
    pub trail: Trail,
}
