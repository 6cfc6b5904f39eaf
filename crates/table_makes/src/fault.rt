use draft_growth::GrowthFault;
use host_base::Memory;
use plan_space::SpaceFault;
use std::alloc::AllocError;
use thiserror::Error;

/// Why a file table doesn't grow.
#[derive(Clone, Copy, Debug, PartialEq, Eq, Error)]
pub enum TableFault {
    /// The view failed.
    #[error("the view failed")]
    Fault,
    /// Record 0 would use so many bytes, which are above 1,024.
    #[error("{used} bytes would be used")]
    Full { used: u64 },
    /// Want of memory.
    #[error("no memory")]
    Memory,
    /// The bitmap of the numbers isn't one that is put and counted the same, or what was read is
    /// part of no state.
    #[error("the file table can't grow so")]
    Unplanned,
}

/// Why a file table isn't counted as one that grows.
#[derive(Clone, Copy, Debug, PartialEq, Eq)]
pub enum CountFault {
    /// Record 0 would use so many bytes, which are above 1,024.
    Full { used: u64 },
    /// Want of memory.
    Memory,
    /// It isn't put and counted the same, or has too few clear clusters.
    Unplanned,
}

impl From<AllocError> for CountFault {
    ghost use Rattle.std.specs.Prelude.{◌≡◌};
    ghost use Rattle.table_makes.specs.declared.fault.CountFault.TheVariants.{Memory as no_memory};

    ghost from_gives = { λ _ fault. fault ≡ no_memory };

    fn from(_error: AllocError) -> Self {
        CountFault::Memory
    }
}

impl From<Memory> for CountFault {
    ghost use Rattle.std.specs.Prelude.{◌≡◌};
    ghost use Rattle.table_makes.specs.declared.fault.CountFault.TheVariants.{Memory as no_memory};

    ghost from_gives = { λ _ fault. fault ≡ no_memory };

    fn from(_error: Memory) -> Self {
        CountFault::Memory
    }
}

impl From<SpaceFault> for CountFault {
    ghost use Rattle.std.specs.Prelude.{◌≡◌};
    ghost use Rattle.table_makes.specs.Faults.{of_space};

    ghost from_gives = { λ e fault. fault ≡ of_space e };

    fn from(error: SpaceFault) -> Self {
        match error {
            SpaceFault::Short { .. } => CountFault::Unplanned,
            SpaceFault::Memory => CountFault::Memory,
        }
    }
}

impl From<AllocError> for TableFault {
    ghost use Rattle.std.specs.Prelude.{◌≡◌};
    ghost use Rattle.table_makes.specs.declared.fault.TableFault.TheVariants.{Memory as no_memory};

    ghost from_gives = { λ _ fault. fault ≡ no_memory };

    fn from(_error: AllocError) -> Self {
        TableFault::Memory
    }
}

impl From<Memory> for TableFault {
    ghost use Rattle.std.specs.Prelude.{◌≡◌};
    ghost use Rattle.table_makes.specs.declared.fault.TableFault.TheVariants.{Memory as no_memory};

    ghost from_gives = { λ _ fault. fault ≡ no_memory };

    fn from(_error: Memory) -> Self {
        TableFault::Memory
    }
}

impl From<CountFault> for TableFault {
    ghost use Rattle.std.specs.Prelude.{◌≡◌};
    ghost use Rattle.table_makes.specs.Faults.{of_count};

    ghost from_gives = { λ e fault. fault ≡ of_count e };

    fn from(error: CountFault) -> Self {
        match error {
            CountFault::Full { used } => TableFault::Full { used },
            CountFault::Memory => TableFault::Memory,
            CountFault::Unplanned => TableFault::Unplanned,
        }
    }
}

impl From<GrowthFault> for TableFault {
    ghost use Rattle.std.specs.Prelude.{◌≡◌};
    ghost use Rattle.table_makes.specs.Faults.{of_growth};

    ghost from_gives = { λ e fault. fault ≡ of_growth e };

    fn from(error: GrowthFault) -> Self {
        match error {
            GrowthFault::Fault => TableFault::Fault,
            GrowthFault::Full { .. } => TableFault::Unplanned,
            GrowthFault::Short { .. } => TableFault::Unplanned,
            GrowthFault::Memory => TableFault::Memory,
        }
    }
}
