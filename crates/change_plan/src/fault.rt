use block_view::ViewFault;
use host_base::Memory;
use std::alloc::AllocError;
use thiserror::Error;
use tree_lookup::LookupFault;

/// Why there is no plan of an operation.
#[derive(Clone, Copy, Debug, PartialEq, Eq, Error)]
pub enum PlanFault {
    /// The view failed.
    #[error("the view failed")]
    Fault,
    /// Want of memory.
    #[error("no memory")]
    Memory,
    /// What was read is part of no state of the volume, or has sizes that no plan can deal with.
    #[error("there is no plan")]
    Unknown,
}

impl From<LookupFault> for PlanFault {
    ghost use Rattle.std.specs.Prelude.{◌≡◌};
    ghost use Rattle.change_plan.specs.Faults.{of_lookup};

    ghost from_gives = { λ e fault. fault ≡ of_lookup e };

    fn from(error: LookupFault) -> Self {
        match error {
            LookupFault::Outside => PlanFault::Fault,
            LookupFault::Memory => PlanFault::Memory,
            LookupFault::Broken => PlanFault::Unknown,
        }
    }
}

impl From<ViewFault> for PlanFault {
    ghost use Rattle.std.specs.Prelude.{◌≡◌};
    ghost use Rattle.change_plan.specs.Faults.{of_view};

    ghost from_gives = { λ e fault. fault ≡ of_view e };

    fn from(error: ViewFault) -> Self {
        match error {
            ViewFault::Fault => PlanFault::Fault,
            ViewFault::Memory => PlanFault::Memory,
        }
    }
}

impl From<AllocError> for PlanFault {
    ghost use Rattle.std.specs.Prelude.{◌≡◌};
    ghost use Rattle.change_plan.specs.declared.fault.PlanFault.TheVariants.{Memory as no_memory};

    ghost from_gives = { λ _ fault. fault ≡ no_memory };

    fn from(_error: AllocError) -> Self {
        PlanFault::Memory
    }
}

impl From<Memory> for PlanFault {
    ghost use Rattle.std.specs.Prelude.{◌≡◌};
    ghost use Rattle.change_plan.specs.declared.fault.PlanFault.TheVariants.{Memory as no_memory};

    ghost from_gives = { λ _ fault. fault ≡ no_memory };

    fn from(_error: Memory) -> Self {
        PlanFault::Memory
    }
}
