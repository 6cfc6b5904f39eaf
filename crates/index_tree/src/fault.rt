use std::alloc::AllocError;
use stream_map::ViewFault;
use thiserror::Error;

/// Why a directory's index gives no answer.
#[derive(Clone, Copy, Debug, PartialEq, Eq, Error)]
pub enum TreeFault {
    /// The node with this VCN breaks this rule; the root's VCN is 2^64 - 1. The rules are: 1 the
    /// block begins `INDX` and its update sequence holds, 2 it has its own VCN, 3 its node header
    /// is lawful, 4 the length and the key of each entry are, 5 it has a last entry, 6 an entry has
    /// a child where the node's flag says so, 7 the VCN of each child lies in the allocation, isn't
    /// met before and hangs on level 16 at most, 8 each key stands in the order of names.
    #[error("node {vcn} of the index breaks rule {rule}")]
    Node { vcn: u64, rule: u32 },
    /// An entry of the same name and file is there.
    #[error("the entry is there")]
    Present,
    /// The key isn't there.
    #[error("the key isn't there")]
    Absent,
    /// The index has so many levels and needs one more.
    #[error("the index has {height} levels")]
    Deep { height: u32 },
    /// The view failed, or there is no memory left.
    #[error("{0}")]
    View(ViewFault),
}

impl From<AllocError> for TreeFault {
    ghost use Rattle.std.specs.Prelude.{◌≡◌};
    ghost use Rattle.stream_map.specs.block_view.declared.fault.ViewFault.TheVariants.{Memory};
    ghost use Rattle.index_tree.specs.declared.fault.TreeFault.TheVariants.{View};

    ghost from_gives = { λ _ fault. fault ≡ View Memory };

    fn from(_error: AllocError) -> Self {
        TreeFault::View(ViewFault::Memory)
    }
}

impl From<ViewFault> for TreeFault {
    ghost use Rattle.std.specs.Prelude.{◌≡◌};
    ghost use Rattle.index_tree.specs.declared.fault.TreeFault.TheVariants.{View};

    ghost from_gives = { λ cause fault. fault ≡ View cause };

    fn from(fault: ViewFault) -> Self {
        TreeFault::View(fault)
    }
}
