ghost use Rattle.std.specs.Prelude.{◌≡◌};
ghost use Rattle.ntfs_host.specs.declared.write_error.WriteError.TheVariants as writes;

use host_base::Failed;
use std::alloc::AllocError;
use thiserror::Error;

/// Why a text was not written to its end.
#[derive(Clone, Copy, Debug, PartialEq, Eq, Error)]
pub enum WriteError {
    #[error("no memory")]
    Memory,
    #[error("the sink failed")]
    Sink,
}

impl From<AllocError> for WriteError {
    ghost from_gives = { λ _ e. e ≡ writes.Memory };

    fn from(_: AllocError) -> Self {
        WriteError::Memory
    }
}

impl From<host_base::Memory> for WriteError {
    ghost from_gives = { λ _ e. e ≡ writes.Memory };

    fn from(_: host_base::Memory) -> Self {
        WriteError::Memory
    }
}

impl From<Failed> for WriteError {
    ghost from_gives = { λ _ e. e ≡ writes.Sink };

    fn from(_: Failed) -> Self {
        WriteError::Sink
    }
}
