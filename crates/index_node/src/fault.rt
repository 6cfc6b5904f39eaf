ghost use Rattle.std.specs.Prelude.{◌≡◌};
ghost use Rattle.index_node.specs.declared.fault.NodeFault.TheVariants.{Memory as no_memory};

use std::alloc::AllocError;
use thiserror::Error;

/// Why bytes are no index node, or why an entry isn't put into one.
#[derive(Clone, Copy, Debug, PartialEq, Eq, Error)]
pub enum NodeFault {
    /// The least rule that the bytes break: 1 where an index block doesn't begin `INDX`, 3 where
    /// the header of a root or of its node is wrong, 4 where an entry's length or key is, 5 where
    /// there is no last entry, 6 where an entry has a child and the node's flag says that none has,
    /// or the other way round.
    #[error("rule {rule} of index nodes is broken")]
    Rule { rule: u32 },
    /// The node would have so many used bytes, counted from its node header, above 4,072.
    #[error("the node would have {used} used bytes")]
    Full { used: u32 },
    #[error("no memory")]
    Memory,
}

impl From<AllocError> for NodeFault {
    ghost from_gives = { λ _ e. e ≡ no_memory };

    fn from(_: AllocError) -> Self {
        NodeFault::Memory
    }
}
