use std::alloc::AllocError;
use thiserror::Error;

/// Why a node is not read.
#[derive(Clone, Copy, Debug, PartialEq, Eq, Error)]
pub enum ReadFault {
    /// The node breaks this rule of index nodes; 7 says that no block has its VCN.
    #[error("rule {rule} of index nodes is broken")]
    Rule { rule: u32 },
    /// The node could not be read.
    #[error("the node could not be read")]
    Failed,
    #[error("no memory")]
    Memory,
}

/// Why no plan is made.
#[derive(Clone, Copy, Debug, PartialEq, Eq, Error)]
pub enum PlanFault {
    /// The node under this VCN breaks this rule of index nodes; the VCN of the root is 2^64 - 1.
    #[error("the node {vcn} breaks rule {rule} of index nodes")]
    Node { vcn: u64, rule: u32 },
    /// The index has no such key.
    #[error("the index has no such key")]
    Absent,
    /// The index needs one level more than the sixteen that it may have; it has so many.
    #[error("the index has {height} levels and needs one more")]
    Deep { height: u32 },
    /// A node could not be read.
    #[error("a node could not be read")]
    Failed,
    #[error("no memory")]
    Memory,
}

impl From<AllocError> for PlanFault {
    ghost use Rattle.std.specs.Prelude.{◌≡◌};
    ghost use Rattle.index_plan.specs.declared.fault.PlanFault.TheVariants.{Memory};

    ghost from_gives = { λ _ fault. fault ≡ Memory };

    fn from(_: AllocError) -> Self {
        PlanFault::Memory
    }
}
