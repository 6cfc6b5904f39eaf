use block_view::ViewFault;
use file_puts::DataFault;
use thiserror::Error;

/// Why a file isn't written or cut.
#[derive(Clone, Copy, Debug, PartialEq, Eq, Error)]
pub enum WriteFault {
    /// The file's record would use so many bytes, which are above 1,024.
    #[error("{used} bytes would be used")]
    Full { used: u64 },
    /// Only so many clusters are free, which are fewer than are wanted.
    #[error("{room} clusters are free")]
    Short { room: u64 },
    /// The view failed.
    #[error("the view failed")]
    Fault,
    /// Want of memory.
    #[error("no memory")]
    Memory,
}

impl From<DataFault> for WriteFault {
    ghost use Rattle.std.specs.Prelude.{◌≡◌};
    ghost use Rattle.file_writes.specs.Faults.{of_data};

    ghost from_gives = { λ e fault. fault ≡ of_data e };

    fn from(error: DataFault) -> Self {
        match error {
            DataFault::Full { used } => WriteFault::Full { used },
            DataFault::Short { room } => WriteFault::Short { room },
            DataFault::Memory => WriteFault::Memory,
        }
    }
}

impl From<ViewFault> for WriteFault {
    ghost use Rattle.std.specs.Prelude.{◌≡◌};
    ghost use Rattle.file_writes.specs.Faults.{of_view};

    ghost from_gives = { λ e fault. fault ≡ of_view e };

    fn from(error: ViewFault) -> Self {
        match error {
            ViewFault::Fault => WriteFault::Fault,
            ViewFault::Memory => WriteFault::Memory,
        }
    }
}
